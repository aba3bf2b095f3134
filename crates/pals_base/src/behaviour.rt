//! Behaviours of threads: typed state machines whose transitions have guards and actions.
use crate::basic_types::NoMemory;
use crate::item_list::ItemList;
use crate::text::Text;
use crate::try_clone::TryClone;
use std::alloc::Global;
use std::marker::Model;
use std::sync::Arc;

/// The type of a port or a variable.
#[derive(Clone, Copy, PartialEq)]
pub enum Kind {
    Integer,
    Boolean,
}

/// A port: its name and its type.
#[derive(Drop)]
pub struct PortDecl {
    pub name: Text,
    pub kind: Kind,
}

/// A variable: its name, its type and its initial value.
#[derive(Drop)]
pub struct VarDecl {
    pub name: Text,
    pub kind: Kind,
    pub first: i64,
}

/// A state. Each step begins and ends in a complete state.
#[derive(Drop)]
pub struct StateDecl {
    pub name: Text,
    pub complete: bool,
}

/// An operator between two operands of a chain.
#[derive(Clone, Copy, PartialEq)]
pub enum Op {
    Add,
    Sub,
    Mul,
    Quot,
    Mod,
    Rem,
    Eq,
    Ne,
    Lt,
    Le,
    Gt,
    Ge,
    And,
    Or,
    Xor,
    AndThen,
    OrElse,
}

/// An expression. Names are resolved to indices. If the index of a variable is not below the number of
/// variables, it denotes a loop variable: first the one of the outermost enclosing loop.
#[cycle(expr)]
pub enum Expr {
    Literal(i64),
    Variable(u32),
    Port(u32),
    Fresh(u32),
    Neg(Box<Expr>),
    Abs(Box<Expr>),
    Not(Box<Expr>),
    Chain {
        first: Box<Expr>,
        rest: Vec<Operand>,
    },
}

// Written by hand, so that dropping a value is one call in the crates above, which is proved once.
impl Drop for Expr {
    #[cycle(expr_drop)]
    fn drop(self) {
        match self {
            Expr::Literal(_) => {}
            Expr::Variable(_) => {}
            Expr::Port(_) => {}
            Expr::Fresh(_) => {}
            Expr::Neg(_) => {}
            Expr::Abs(_) => {}
            Expr::Not(_) => {}
            Expr::Chain { first: _, rest: _ } => {}
        }
    }
}

/// A later operand of a chain. A chain is evaluated from left to right.
#[cycle(expr)]
#[derive(Drop)]
pub struct Operand {
    pub op: Op,
    pub right: Expr,
}

/// An action of a transition.
#[cycle(act)]
pub enum Act {
    /// Assigns a value to a variable.
    Assign {
        variable: u32,
        value: Expr,
    },
    /// Sends a value at an out port in this step.
    Emit {
        port: u32,
        value: Expr,
    },
    /// Executes the first branch with a true guard, or the last actions if there is none.
    If {
        branches: Vec<Branch>,
        otherwise: Vec<Act>,
    },
    /// Executes the body once for each number from `low` to `high`.
    For {
        low: i64,
        high: i64,
        body: Vec<Act>,
    },
}

// Written by hand, so that dropping a value is one call in the crates above, which is proved once.
impl Drop for Act {
    #[cycle(act_drop)]
    fn drop(self) {
        match self {
            Act::Assign {
                variable: _,
                value: _,
            } => {}
            Act::Emit { port: _, value: _ } => {}
            Act::If {
                branches: _,
                otherwise: _,
            } => {}
            Act::For {
                low: _,
                high: _,
                body: _,
            } => {}
        }
    }
}

/// A branch of an `if`.
#[cycle(act)]
#[derive(Drop)]
pub struct Branch {
    pub guard: Expr,
    pub acts: Vec<Act>,
}

/// The condition of a transition: the dispatch, always (`otherwise` and an empty guard), or an expression that
/// must be true.
#[derive(Drop)]
pub enum Guard {
    Dispatch,
    Always,
    When(Expr),
}

/// A transition between two states. Its model is an edge with plain trees.
#[derive(Drop)]
pub struct Transition {
    pub source: u32,
    pub target: u32,
    pub guard: Guard,
    pub acts: Vec<Act>,
}

impl Model for Transition {
    ghost use Rattle.pals_base.specs.ExpressionAndActionTrees.{Edge};
    ghost use Rattle.pals_base.specs.proof.TreeEncoding.{edge_code};

    ghost Value = { Edge };

    ghost coded = { edge_code };

    ghost use Rattle.pals_base.specs.proof.TreeViews.{trigger_of, actions_along};

    ghost view = { λ t. record {
      source = t.source;
      target = t.target;
      trigger = trigger_of t.guard;
      actions = actions_along t.acts.items;
    } };
}

/// The parts of a behaviour: its ports, variables and states, the index of its initial state, and the
/// transitions in the order of the text.
pub struct BehaviourParts {
    pub ins: ItemList<PortDecl>,
    pub outs: ItemList<PortDecl>,
    pub vars: ItemList<VarDecl>,
    pub states: ItemList<StateDecl>,
    pub initial: u32,
    pub transitions: ItemList<Transition>,
}

// Written by hand, so that dropping a value is one call in the crates above, which is proved once.
impl Drop for BehaviourParts {
    fn drop(self) {
        let BehaviourParts {
            ins: _,
            outs: _,
            vars: _,
            states: _,
            initial: _,
            transitions: _,
        } = self;
    }
}

/// A behaviour of a thread. Its model is its parts. Invariants: it is well typed and its loops are short;
/// exactly one transition at the dispatch leaves each complete state; from every other state a step can
/// proceed, and every path reaches a complete state, so each step ends. A behaviour is immutable, so many
/// threads can share one, and its parts are stored once.
pub struct Behaviour {
    parts: Arc<BehaviourParts>,
}

impl Drop for Behaviour {
    fn drop(self) {
        let Behaviour { parts: _ } = self;
    }
}

impl Model for Behaviour {
    ghost use Rattle.pals_base.specs.declared.behaviour.BehaviourParts.{BehaviourParts};

    ghost Value = { BehaviourParts };

    ghost use Rattle.pals_base.specs.contracts.behaviour.BehaviourParts.{the_row};

    ghost coded = { the_row.coded };

    ghost use Rattle.std.specs.Arc.{arc_value};

    ghost view = { λ behaviour. arc_value behaviour.parts };

    ghost use Rattle.pals_base.specs.BehaviourRules.{IsBehaviour};

    ghost invariant = { λ behaviour. IsBehaviour (arc_value behaviour.parts) };
}

impl Behaviour {
    ghost use Rattle.std.specs.Prelude.{◌≡◌, IfOk, length};
    ghost use Rattle.pals_base.specs.BehaviourRules.{IsBehaviour};

    /// Creates a behaviour from parts that satisfy the rules. Errors: out of memory.
    pub fn new(alloc: Global, parts: BehaviourParts) -> Result<Behaviour, NoMemory>
        requires { IsBehaviour parts }
        ensures { IfOk result (λ behaviour. behaviour ≡ parts) }
    {
        Ok(Behaviour {
            parts: Arc::new(alloc, parts)?,
        })
    }

    /// Returns all parts.
    pub fn parts(&self) -> &BehaviourParts
        ensures value { result.now ≡ self.now }
        ensures rules { IsBehaviour self.now }
    {
        &self.parts
    }

    /// Returns the in ports, by index.
    pub fn ins(&self) -> &[PortDecl]
        ensures value { result.now ≡ self.now.ins }
        ensures len { length result.now ≡ length self.now.ins }
    {
        self.parts.ins.as_slice()
    }

    /// Returns the out ports, by index.
    pub fn outs(&self) -> &[PortDecl]
        ensures value { result.now ≡ self.now.outs }
        ensures len { length result.now ≡ length self.now.outs }
    {
        self.parts.outs.as_slice()
    }

    /// Returns the variables, by index.
    pub fn vars(&self) -> &[VarDecl]
        ensures value { result.now ≡ self.now.vars }
        ensures len { length result.now ≡ length self.now.vars }
    {
        self.parts.vars.as_slice()
    }

    /// Returns the states, by index.
    pub fn states(&self) -> &[StateDecl]
        ensures value { result.now ≡ self.now.states }
        ensures len { length result.now ≡ length self.now.states }
    {
        self.parts.states.as_slice()
    }

    /// Returns the index of the initial state.
    pub fn initial(&self) -> u32
        ensures value { result ≡ self.now.initial }
    {
        self.parts.initial
    }

    /// Returns the transitions in the order of the text.
    pub fn transitions(&self) -> &[Transition]
        ensures value { result.now ≡ self.now.transitions }
        ensures len { length result.now ≡ length self.now.transitions }
    {
        self.parts.transitions.as_slice()
    }
}

// A clone shares the parts and increments their reference count. Does not allocate.
impl TryClone for Behaviour {
    fn try_clone(&self, _alloc: Global) -> Result<Behaviour, NoMemory> {
        Ok(Behaviour {
            parts: Arc::try_clone(&self.parts)?,
        })
    }
}
