//! What each component of a ring does: x := (x + 2 * i + 1) mod 1000; o!(x), in its only state.
ghost use Rattle.std.specs.Prelude.{◌≡◌, [], ◌∷◌, IfOk};
ghost use Rattle.pals_base.specs.proof.TreeViews.{tree_of, operands_along, actions_along};
ghost use Rattle.pals_base.specs.ExpressionAndActionTrees as tree;
ghost use Rattle.world_gen.specs.Rings.{number_port, ring_variable, ring_state, twice_input, number_sum, next_number};
ghost use Rattle.world_gen.specs.Rings.{ring_actions, ring_edge, ring_behaviour};

use pals_base::{
    Act, Behaviour, BehaviourParts, Expr, Guard, ItemList, Kind, NoMemory, Op, Operand, PortDecl,
    StateDecl, Text, Transition, VarDecl,
};
use std::alloc::Global;

// A chain of operands.
fn chain(alloc: Global, first: Expr, rest: Vec<Operand>) -> Result<Expr, NoMemory>
    ensures { IfOk result (λ chain. tree_of chain ≡ tree.Chain (tree_of first) (operands_along rest.items)) }
{
    Ok(Expr::Chain {
        first: Box::new(alloc, first)?,
        rest,
    })
}

// 2 * i
fn twice_input(alloc: Global) -> Result<Expr, NoMemory>
    ensures { IfOk result (λ twice. tree_of twice ≡ twice_input) }
{
    let rest = vec![in alloc;
        Operand {
            op: Op::Mul,
            right: Expr::Port(0)
        },
    ]?;
    chain(alloc, Expr::Literal(2), rest)
}

// x + 2 * i + 1
fn sum(alloc: Global) -> Result<Expr, NoMemory>
    ensures { IfOk result (λ sum. tree_of sum ≡ number_sum) }
{
    let twice = Operand {
        op: Op::Add,
        right: twice_input(alloc)?,
    };
    let one = Operand {
        op: Op::Add,
        right: Expr::Literal(1),
    };
    let rest = vec![in alloc; twice, one]?;
    chain(alloc, Expr::Variable(0), rest)
}

// (x + 2 * i + 1) mod 1000
fn next_number(alloc: Global) -> Result<Expr, NoMemory>
    ensures { IfOk result (λ next. tree_of next ≡ next_number) }
{
    let sum = sum(alloc)?;
    let modulus = vec![in alloc;
        Operand {
            op: Op::Mod,
            right: Expr::Literal(1000)
        },
    ]?;
    chain(alloc, sum, modulus)
}

// x := (x + 2 * i + 1) mod 1000; o!(x)
fn actions(alloc: Global) -> Result<Vec<Act>, NoMemory>
    ensures { IfOk result (λ acts. actions_along acts.items ≡ ring_actions) }
{
    let assign = Act::Assign {
        variable: 0,
        value: next_number(alloc)?,
    };
    let emit = Act::Emit {
        port: 0,
        value: Expr::Variable(0),
    };
    Ok(vec![in alloc; assign, emit]?)
}

fn transitions(alloc: Global) -> Result<ItemList<Transition>, NoMemory>
    ensures { IfOk result (λ transitions. transitions ≡ ring_edge ∷ []) }
{
    let acts = actions(alloc)?;
    only(
        alloc,
        Transition {
            source: 0,
            target: 0,
            guard: Guard::Dispatch,
            acts,
        },
    )
}

// A port of numbers, alone.
fn ports(alloc: Global, name: &str) -> Result<ItemList<PortDecl>, NoMemory>
    ensures { IfOk result (λ ports. ports ≡ number_port name.now ∷ []) }
{
    let name = Text::from_str(alloc, name)?;
    only(
        alloc,
        PortDecl {
            name,
            kind: Kind::Integer,
        },
    )
}

fn variables(alloc: Global) -> Result<ItemList<VarDecl>, NoMemory>
    ensures { IfOk result (λ variables. variables ≡ ring_variable ∷ []) }
{
    let name = Text::from_str(alloc, "x")?;
    only(
        alloc,
        VarDecl {
            name,
            kind: Kind::Integer,
            first: 0,
        },
    )
}

fn states(alloc: Global) -> Result<ItemList<StateDecl>, NoMemory>
    ensures { IfOk result (λ states. states ≡ ring_state ∷ []) }
{
    let name = Text::from_str(alloc, "s")?;
    only(
        alloc,
        StateDecl {
            name,
            complete: true,
        },
    )
}

// A list of one item.
fn only<T: Drop>(alloc: Global, item: T) -> Result<ItemList<T>, NoMemory>
    ensures { IfOk result (λ items. items ≡ item ∷ []) }
{
    let mut items = ItemList::new(alloc);
    items.push(item)?;
    Ok(items)
}

/// The behaviour of each component of a ring.
pub fn ring_behaviour(alloc: Global) -> Result<Behaviour, NoMemory>
    ensures { IfOk result (λ behaviour. behaviour ≡ ring_behaviour) }
{
    let parts = BehaviourParts {
        ins: ports(alloc, "i")?,
        outs: ports(alloc, "o")?,
        vars: variables(alloc)?,
        states: states(alloc)?,
        initial: 0,
        transitions: transitions(alloc)?,
    };
    Ok(Behaviour::new(alloc, parts)?)
}
