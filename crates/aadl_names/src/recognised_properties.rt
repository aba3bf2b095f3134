//! The properties that mean something, and where they do.
ghost use Rattle.std.specs.Prelude.{◌≡◌};
ghost use Rattle.aadl_names.specs.RecognisedProperties as spec;

use aadl_tree::Category;

/// A property that means something.
#[derive(Clone, Copy)]
pub enum PropertyName {
    Period,
    Dispatch,
    Timing,
    Adaptor,
    Skew,
    Execution,
    Network,
    Initial,
}

impl PropertyName {
    /// Its name.
    pub fn name(self) -> &'static str
        ensures { result.now ≡ spec.name_of self }
    {
        match self {
            PropertyName::Period => "Period",
            PropertyName::Dispatch => "Dispatch_Protocol",
            PropertyName::Timing => "Timing",
            PropertyName::Adaptor => "PALS_Profile::Input_Adaptor",
            PropertyName::Skew => "PALS_Profile::Skew",
            PropertyName::Execution => "PALS_Profile::Execution",
            PropertyName::Network => "PALS_Profile::Network",
            PropertyName::Initial => "Data_Model::Initial_Value",
        }
    }
}

/// A kind of position of properties.
#[derive(Clone, Copy)]
pub enum PropertyHolder {
    Port,
    Variable,
    Connection,
    Subcomponent(Category),
    /// A type or an implementation, and whether it is the root's.
    Declaration(Category, bool),
}

impl PropertyHolder {
    /// The properties that are recognised here.
    pub fn recognised(self) -> &'static [PropertyName]
        ensures { result.now ≡ spec.recognised self }
    {
        match self {
            PropertyHolder::Port => &[],
            PropertyHolder::Variable => &[PropertyName::Initial],
            PropertyHolder::Connection => &[PropertyName::Timing, PropertyName::Adaptor],
            PropertyHolder::Subcomponent(category) => timed(category),
            PropertyHolder::Declaration(category, false) => timed(category),
            PropertyHolder::Declaration(Category::Thread, true) => &[
                PropertyName::Period,
                PropertyName::Dispatch,
                PropertyName::Skew,
                PropertyName::Execution,
                PropertyName::Network,
            ],
            PropertyHolder::Declaration(_, true) => &[
                PropertyName::Period,
                PropertyName::Skew,
                PropertyName::Execution,
                PropertyName::Network,
            ],
        }
    }
}

// The properties that all components have.
fn timed(category: Category) -> &'static [PropertyName]
    ensures { result.now ≡ spec.timed category }
{
    match category {
        Category::Thread => &[PropertyName::Period, PropertyName::Dispatch],
        Category::System | Category::Process => &[PropertyName::Period],
    }
}
