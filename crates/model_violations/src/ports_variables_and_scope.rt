//! The ports and variables of a behaviour, and the scope that determines the meaning of their names.
ghost use Rattle.std.specs.Prelude.{◌≡◌, ◌++◌, ◌<◌, ◌^◌, IfOk, OnOk, length, map};
ghost use Rattle.std.specs.List.{enumerate_from};
ghost use Rattle.model_violations.specs.PortsAndVariables as spec;

use crate::port_or_variable::Declared;
use annex_resolve::{DeclaredName, DeclaredValues, Meaning, Scope};
use pals_base::{ItemList, Kind, NoMemory, PortDecl, TryClone, VarDecl};
use std::alloc::Global;

// A type; a missing type counts as Integer.
fn or_integer(kind: Option<Kind>) -> Kind
    ensures { result ≡ spec.or_integer kind }
{
    match kind {
        Some(kind) => kind,
        None => Kind::Integer,
    }
}

// The ports of a behaviour.
fn named(alloc: Global, ports: &[Declared]) -> Result<ItemList<PortDecl>, NoMemory>
    ensures { IfOk result (λ named. named ≡ map spec.named_of ports.now) }
{
    let mut named = ItemList::new(alloc);
    for port in ports {
        named.push(PortDecl {
            name: port.name.try_clone(alloc)?,
            kind: or_integer(port.kind),
        })?;
    }
    Ok(named)
}

// The variables of a behaviour.
fn vars(alloc: Global, variables: &[Declared]) -> Result<ItemList<VarDecl>, NoMemory>
    ensures { IfOk result (λ vars. vars ≡ map spec.var_of variables.now) }
{
    let mut vars = ItemList::new(alloc);
    for variable in variables {
        vars.push(VarDecl {
            name: variable.name.try_clone(alloc)?,
            kind: or_integer(variable.kind),
            first: variable.first,
        })?;
    }
    Ok(vars)
}

// The ports and variables of a behaviour.
fn values_by(
    alloc: Global,
    ins: &[Declared],
    outs: &[Declared],
    variables: &[Declared],
) -> Result<DeclaredValues, NoMemory>
    ensures { IfOk result (λ values. values ≡ spec.values_by ins.now outs.now variables.now) }
{
    Ok(DeclaredValues {
        ins: named(alloc, ins)?,
        outs: named(alloc, outs)?,
        vars: vars(alloc, variables)?,
    })
}

// The meaning of a declared name.
fn entry_of(alloc: Global, declared: &Declared, meaning: Meaning) -> Result<DeclaredName, NoMemory>
    ensures { IfOk result (λ entry. entry ≡ record {
      name = declared.now.name;
      kind = declared.now.kind;
      meaning = meaning;
    }) }
{
    Ok(DeclaredName {
        name: declared.name.try_clone(alloc)?,
        kind: declared.kind,
        meaning,
    })
}

// Adds the meanings of in ports.
fn add_ins(
    alloc: Global,
    ins: &[Declared],
    entries: &mut ItemList<DeclaredName>,
) -> Result<(), NoMemory>
    requires { length ins.now < 2 ^ 32 }
    ensures { OnOk result (entries.new ≡ entries.old ++ map spec.in_entry (enumerate_from 0 ins.now)) }
{
    for at in 0..ins.len() {
        entries.push(entry_of(alloc, &ins[at], Meaning::InPort(at as u32))?)?;
    }
    Ok(())
}

// Adds the meanings of out ports.
fn add_outs(
    alloc: Global,
    outs: &[Declared],
    entries: &mut ItemList<DeclaredName>,
) -> Result<(), NoMemory>
    requires { length outs.now < 2 ^ 32 }
    ensures { OnOk result (entries.new ≡ entries.old ++ map spec.out_entry (enumerate_from 0 outs.now)) }
{
    for at in 0..outs.len() {
        entries.push(entry_of(alloc, &outs[at], Meaning::OutPort(at as u32))?)?;
    }
    Ok(())
}

// Adds the meanings of variables.
fn add_vars(
    alloc: Global,
    variables: &[Declared],
    entries: &mut ItemList<DeclaredName>,
) -> Result<(), NoMemory>
    requires { length variables.now < 2 ^ 32 }
    ensures { OnOk result (entries.new ≡ entries.old ++ map spec.variable_entry (enumerate_from 0 variables.now)) }
{
    for at in 0..variables.len() {
        entries.push(entry_of(alloc, &variables[at], Meaning::Variable(at as u32))?)?;
    }
    Ok(())
}

// The meanings of the names of ports and variables.
fn scope_by(
    alloc: Global,
    ins: &[Declared],
    outs: &[Declared],
    variables: &[Declared],
) -> Result<Scope, NoMemory>
    requires ins { length ins.now < 2 ^ 32 }
    requires outs { length outs.now < 2 ^ 32 }
    requires variables { length variables.now < 2 ^ 32 }
    ensures { IfOk result (λ scope. scope ≡ spec.scope_by ins.now outs.now variables.now) }
{
    let mut entries = ItemList::new(alloc);
    add_ins(alloc, ins, &mut entries)?;
    add_outs(alloc, outs, &mut entries)?;
    add_vars(alloc, variables, &mut entries)?;
    Ok(Scope {
        entries,
        next: variables.len() as u32,
    })
}

/// Returns the ports and variables of a behaviour, and the meanings of their names. Errors: out of memory.
pub fn values_and_scope_by(
    alloc: Global,
    ins: &[Declared],
    outs: &[Declared],
    variables: &[Declared],
) -> Result<(DeclaredValues, Scope), NoMemory>
    requires ins { length ins.now < 2 ^ 32 }
    requires outs { length outs.now < 2 ^ 32 }
    requires variables { length variables.now < 2 ^ 32 }
    ensures values { IfOk result (λ setting. setting.0 ≡ spec.values_by ins.now outs.now variables.now) }
    ensures scope { IfOk result (λ setting. setting.1 ≡ spec.scope_by ins.now outs.now variables.now) }
{
    let values = values_by(alloc, ins, outs, variables)?;
    let scope = scope_by(alloc, ins, outs, variables)?;
    Ok((values, scope))
}
