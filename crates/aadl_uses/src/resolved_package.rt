//! A package with its look-ups: the implementations that subcomponents name, and the types of implementations,
//! by their numbers.
ghost use Rattle.std.specs.Prelude.{◌≡◌, ◌↔◌, ◌<◌, ℕ, IfOk, IsTrue, Contains, map, length, slice_index, option_map};
ghost use Rattle.std.specs.Prelude.{option_copied};
ghost use Rattle.std.specs.Option.{option_and_then};
ghost use Rattle.std.proofs.Props.{props};
ghost use Rattle.aadl_tree.specs.proof.PackageViews.{placed};
ghost use Rattle.aadl_tree.specs.proof.DeclarationViews.{declaration_view, feature_view, implementation_view};
ghost use Rattle.aadl_tree.specs.proof.DeclarationViews.{subcomponent_view};
ghost use Rattle.aadl_tree.specs.proof.PlaceMaps.{kept_place};
ghost use Rattle.aadl_names.specs.declared.fault.PackageFault.{PackageFault};
ghost use Rattle.aadl_names.specs.NameResolution as resolving;
ghost use Rattle.aadl_names.specs.NameResolution.{implementation_at, ports_at, referred};
ghost use Rattle.aadl_uses.specs.proof.PackageContainment as spec;
ghost use Rattle.aadl_uses.specs.proof.PackageContainment.{targets_in};
ghost use Rattle.aadl_uses.specs.proof.ImplementationTypes.{type_in, type_number_at};
ghost use Rattle.aadl_uses.specs.ContainmentAndUse.{sub_at, below, IsInUse};
ghost use Rattle.aadl_uses.specs.Recursion.{IsRecursive};
ghost use Rattle.aadl_uses.specs.proof.ThreadCounts.{is_thread_in, is_thread_declaration, thread_marks, AreCounted};
ghost use Rattle.aadl_uses.specs.ThreadsBelow.{IsThreadAt, PathBefore, MoreThan};
ghost use Rattle.aadl_uses.specs.proof.ContainmentOrders.{IsOrder};
ghost use Rattle.pals_base.specs.declared.limits.TheConstants.{COMPONENTS};

use crate::implementation_types::types_of;
use crate::{Containment, counts_below, order, reached};
use aadl_names::Names;
use aadl_names::declarations_by_number::{implementation_at, subcomponent_at, type_numbered};
use aadl_tree::{Category, Declaration, Feature, Implementation, PackageTree, Subcomponent};
use indexmap::IndexSet;
use pals_base::ItemList;
use pals_base::limits::COMPONENTS;
use std::alloc::{AllocError, Global};

/// A package with the implementations that its subcomponents name and the types of its implementations, all by
/// number.
pub struct Uses<'t> {
    /// The package with its table of names.
    pub names: Names<'t>,
    graph: Containment,
    types: ItemList<Option<usize>>,
    ghost of_subs: { graph ≡ spec.containment (placed names.tree.now) } by { Prim.hlevel props },
    ghost of_types: { types ≡ map (type_in (placed names.tree.now)) (placed names.tree.now).declarations } by { Prim.hlevel props },
}

impl Drop for Uses<'_> {
    fn drop(self) {
        let Uses {
            names: _,
            graph: _,
            types: _,
        } = self;
    }
}

impl<'t> Uses<'t> {
    /// Looks up the subcomponents and types of a package. Errors: out of memory.
    pub fn of(alloc: Global, names: Names<'t>) -> Result<Uses<'t>, AllocError>
        ensures { IfOk result (λ uses. uses.names.tree.now ≡ names.entry.tree.now) }
    {
        let declarations = names.tree.declarations.as_slice();
        let graph = containment_of(alloc, &names, declarations)?;
        let types = types_of(alloc, &names, declarations)?;
        Ok(Uses {
            names,
            graph,
            types,
        })
    }

    /// Returns the containment relation of the declarations.
    pub fn containment(&self) -> &Containment
        ensures { result.now ≡ spec.containment (placed self.now.names.tree.now) }
    {
        &self.graph
    }

    /// Returns the number of declarations.
    pub fn len(&self) -> usize
        ensures { result ≡ length (placed self.now.names.tree.now).declarations }
    {
        self.graph.len()
    }

    /// Returns the numbers of the implementations that the subcomponents of a declaration name, in order.
    pub fn targets(&self, number: usize) -> &[Option<usize>]
        ensures { result.now ≡ spec.targets_of (placed self.now.names.tree.now)
            (implementation_at (placed self.now.names.tree.now) number) }
    {
        self.graph.targets(number)
    }

    /// Returns all declarations, each after the declarations that its subcomponents name. Precondition: no
    /// declaration contains itself. Errors: out of memory.
    pub fn order(&self, alloc: Global) -> Result<IndexSet<usize>, AllocError>
        requires { (fault : PackageFault) → ¬ IsRecursive (placed self.now.names.tree.now) fault }
        ensures { IfOk result (λ order. IsOrder (spec.containment (placed self.now.names.tree.now)) order.keys) }
    {
        order(alloc, &self.graph)
    }

    /// Returns which declarations are implementations of threads. Errors: out of memory.
    pub fn thread_marks(&self, alloc: Global) -> Result<Vec<bool>, AllocError>
        ensures { IfOk result (λ marks. marks.items ≡ thread_marks (placed self.now.names.tree.now)) }
    {
        marks_of(alloc, self.names.tree.declarations.as_slice())
    }

    /// Returns, for each declaration, the number of threads below it, including itself; `limit` if there are
    /// more. Errors: out of memory.
    pub fn thread_counts(
        &self,
        alloc: Global,
        order: &IndexSet<usize>,
        limit: usize,
    ) -> Result<Vec<usize>, AllocError>
        requires { IsOrder (spec.containment (placed self.now.names.tree.now)) order.now.keys }
        ensures { IfOk result (λ counts. (n : ℕ) → n < length (placed self.now.names.tree.now).declarations
            → AreCounted (placed self.now.names.tree.now) limit n (slice_index counts.items n)) }
    {
        let marks = self.thread_marks(alloc)?;
        counts_below(alloc, &self.graph, marks.as_slice(), order, limit)
    }

    /// Returns whether there are more threads below a root than a design may have components. Errors: out of
    /// memory.
    pub fn has_too_many_threads(
        &self,
        alloc: Global,
        order: &IndexSet<usize>,
        root: usize,
    ) -> Result<bool, AllocError>
        requires order { IsOrder (spec.containment (placed self.now.names.tree.now)) order.now.keys }
        requires root { root < length (placed self.now.names.tree.now).declarations }
        ensures { IfOk result (λ more. IsTrue more
            ↔ MoreThan COMPONENTS (IsThreadAt (placed self.now.names.tree.now) root) PathBefore) }
    {
        let counts = self.thread_counts(alloc, order, COMPONENTS + 1)?;
        let count = count_at(counts.as_slice(), root);
        Ok(count > COMPONENTS)
    }

    /// Returns whether a declaration is the implementation of a thread.
    pub fn is_thread(&self, number: usize) -> bool
        ensures { result ≡ is_thread_in (implementation_at (placed self.now.names.tree.now) number) }
    {
        match self.names.tree.declarations.get(number) {
            Some(declaration) => is_thread(declaration),
            None => false,
        }
    }

    /// Returns the number of the implementation that a subcomponent of a declaration names.
    pub fn below(&self, number: usize, sub: usize) -> Option<usize>
        ensures { result ≡ below (placed self.now.names.tree.now) number sub }
    {
        self.graph.below(number, sub)
    }

    /// Returns the number of the type of a declaration, if it is an implementation whose type is declared.
    pub fn type_number(&self, number: usize) -> Option<usize>
        ensures { result ≡ type_number_at (placed self.now.names.tree.now) number }
    {
        match self.types.get(number) {
            Some(of_type) => *of_type,
            None => None,
        }
    }

    /// Returns the ports of an implementation.
    pub fn ports(&self, number: usize) -> &'t [Feature]
        ensures { map (feature_view kept_place) result.now
            ≡ ports_at (placed self.now.names.tree.now) (implementation_at (placed self.now.names.tree.now) number) }
    {
        match type_numbered(self.names.tree, self.type_number(number)) {
            Some(of_type) => of_type.features.as_slice(),
            None => &[],
        }
    }

    /// Returns the number of the type of the implementation that a subcomponent of a declaration names.
    pub fn type_below(&self, number: usize, sub: usize) -> Option<usize>
        ensures { result ≡ option_and_then (type_number_at (placed self.now.names.tree.now))
            (below (placed self.now.names.tree.now) number sub) }
    {
        match self.below(number, sub) {
            Some(target) => self.type_number(target),
            None => None,
        }
    }

    /// Returns the numbers of the implementations in use below a root, including its own. Errors: out of
    /// memory.
    pub fn in_use(&self, alloc: Global, root: usize) -> Result<IndexSet<usize>, AllocError>
        requires { root < length (placed self.now.names.tree.now).declarations }
        ensures { IfOk result (λ used. (n : ℕ) → Contains used.keys n
            ↔ IsInUse (placed self.now.names.tree.now) root n) }
    {
        reached(alloc, &self.graph, root)
    }

    /// Returns the implementation with a number.
    pub fn implementation(&self, number: usize) -> Option<&'t Implementation>
        ensures { option_map (implementation_view kept_place) (option_copied result)
            ≡ implementation_at (placed self.now.names.tree.now) number }
    {
        implementation_at(self.names.tree, number)
    }

    /// Returns a subcomponent of a declaration.
    pub fn subcomponent(&self, number: usize, sub: usize) -> Option<&'t Subcomponent>
        ensures { option_map (subcomponent_view kept_place) (option_copied result)
            ≡ sub_at (placed self.now.names.tree.now) number sub }
    {
        subcomponent_at(self.names.tree, number, sub)
    }
}

// Whether a declaration is the implementation of a thread.
fn is_thread(declaration: &Declaration) -> bool
    ensures { result ≡ is_thread_declaration (declaration_view kept_place declaration.now) }
{
    match declaration {
        Declaration::Type(_) => false,
        Declaration::Implementation(x) => is_thread_category(x.category),
    }
}

fn is_thread_category(category: Category) -> bool
    ensures { result ≡ resolving.is_thread category }
{
    match category {
        Category::Thread => true,
        Category::System => false,
        Category::Process => false,
    }
}

// Which declarations are implementations of threads.
fn marks_of(alloc: Global, declarations: &[Declaration]) -> Result<Vec<bool>, AllocError>
    ensures { IfOk result (λ marks. marks.items
        ≡ map is_thread_declaration (map (declaration_view kept_place) declarations.now)) }
{
    let mut marks = Vec::new(alloc);
    for declaration in declarations {
        marks.push(is_thread(declaration))?;
    }
    Ok(marks)
}

// The count of a declaration.
fn count_at(counts: &[usize], number: usize) -> usize
    ensures { result ≡ slice_index counts.now number }
{
    match counts.get(number) {
        Some(count) => *count,
        None => 0,
    }
}

// The containment relation of declarations.
fn containment_of(
    alloc: Global,
    names: &Names<'_>,
    declarations: &[Declaration],
) -> Result<Containment, AllocError>
    ensures { IfOk result (λ graph. graph ≡ map (targets_in (placed names.now.tree.now))
        (map (declaration_view kept_place) declarations.now)) }
{
    let mut graph = Containment::new(alloc);
    for declaration in declarations {
        graph.push(targets_of(alloc, names, declaration)?)?;
    }
    Ok(graph)
}

// The declarations that the subcomponents of a declaration name.
fn targets_of(
    alloc: Global,
    names: &Names<'_>,
    declaration: &Declaration,
) -> Result<Vec<Option<usize>>, AllocError>
    ensures { IfOk result (λ targets. targets.items
        ≡ targets_in (placed names.now.tree.now) (declaration_view kept_place declaration.now)) }
{
    match declaration {
        Declaration::Type(_) => Ok(Vec::new(alloc)),
        Declaration::Implementation(x) => targets_of_subs(alloc, names, x.subcomponents.as_slice()),
    }
}

// The declarations that these subcomponents name.
fn targets_of_subs(
    alloc: Global,
    names: &Names<'_>,
    subs: &[Subcomponent],
) -> Result<Vec<Option<usize>>, AllocError>
    ensures { IfOk result (λ targets. targets.items ≡ map (λ sub. referred (placed names.now.tree.now) sub.classifier)
        (map (subcomponent_view kept_place) subs.now)) }
{
    let mut targets = Vec::new(alloc);
    for sub in subs {
        targets.push(names.referred(alloc, &sub.classifier)?)?;
    }
    Ok(targets)
}
