//! The test for the category of threads.
ghost use Rattle.std.specs.Prelude.{◌≡◌};
ghost use Rattle.aadl_names.specs.NameResolution.{is_thread};

use aadl_tree::Category;

/// Returns whether the category is `thread`.
pub fn is_thread(category: Category) -> bool
    ensures { result ≡ is_thread category }
{
    match category {
        Category::Thread => true,
        Category::System | Category::Process => false,
    }
}
