//! A package with tables of its names: the numbers of types, implementations, ports and subcomponents.
ghost use Rattle.std.specs.Prelude.{◌≡◌, ℕ, List, [], IfOk, OnOk, map, Some, None, if◌then◌else◌};
ghost use Rattle.std.specs.Prelude.{slice_index_or, slice_get};
ghost use Rattle.aadl_tree.specs.Names.{same_name};
ghost use Rattle.std.proofs.Props.{props};
ghost use Rattle.std.specs.Option.{option_or};
ghost use Rattle.aadl_tree.specs.proof.PackageViews.{placed};
ghost use Rattle.aadl_tree.specs.proof.NameViews.{identifier_view, reference_view};
ghost use Rattle.aadl_tree.specs.proof.DeclarationViews.{feature_view, subcomponent_view, declaration_view};
ghost use Rattle.aadl_tree.specs.proof.PlaceMaps.{kept_place};
ghost use Rattle.aadl_names.specs.proof.NameTables.{value_of};
ghost use Rattle.aadl_names.specs.proof.MemberNumbers.{member_of};
ghost use Rattle.aadl_names.specs.NameResolution as spec;
ghost use Rattle.aadl_names.specs.NameResolution.{first_number, is_type, is_implementation, port_named, sub_named};

use crate::name_comparison::same_word;
use crate::name_table::NameTable;
use crate::qualified_names::spelled_implementation;
use aadl_tree::{
    Declaration, Feature, Identifier, Implementation, PackageTree, Reference, Subcomponent,
};
use pals_base::ItemList;
use std::alloc::{AllocError, Global};

/// A package with its names.
pub struct Names<'t> {
    /// The package.
    pub tree: &'t PackageTree,
    types: NameTable<usize>,
    implementations: NameTable<usize>,
    // the ports of each type, and the subcomponents of each implementation
    members: ItemList<NameTable<usize>>,
    ghost of_types: { (name : List ℕ) → value_of types name
        ≡ first_number (is_type name) (placed tree.now).declarations } by { Prim.hlevel props },
    ghost of_implementations: { (name : List ℕ) → value_of implementations name
        ≡ first_number (is_implementation name) (placed tree.now).declarations } by { Prim.hlevel props },
    ghost of_members: { (number : ℕ) (name : List ℕ) → value_of (slice_index_or members number []) name
        ≡ member_of (slice_get (placed tree.now).declarations number) name } by { Prim.hlevel props },
}

impl Drop for Names<'_> {
    fn drop(self) {
        let Names {
            tree: _,
            types: _,
            implementations: _,
            members: _,
        } = self;
    }
}

impl<'t> Names<'t> {
    /// The names of a package.
    pub fn of(alloc: Global, tree: &'t PackageTree) -> Result<Names<'t>, AllocError>
        ensures { IfOk result (λ names. names.tree.now ≡ tree.now) }
    {
        let declarations = tree.declarations.as_slice();
        let types = types_of(alloc, declarations)?;
        let implementations = implementations_of(alloc, declarations)?;
        let members = members_of(alloc, declarations)?;
        Ok(Names {
            tree,
            types,
            implementations,
            members,
        })
    }

    /// The number of the first type of a name.
    pub fn type_number(&self, alloc: Global, name: &Identifier) -> Result<Option<usize>, AllocError>
        ensures { IfOk result (λ number. number
            ≡ first_number (is_type name.now.spelling) (placed self.now.tree.now).declarations) }
    {
        self.types.value(alloc, name.spelling.as_str())
    }

    /// The number of the implementation that a reference names.
    #[tactic(auto, unfolding(crate::specs::NameResolution::referred))]
    pub fn referred(&self, alloc: Global, x: &Reference) -> Result<Option<usize>, AllocError>
        ensures { IfOk result (λ number. number
            ≡ spec.referred (placed self.now.tree.now) (reference_view kept_place x.now)) }
    {
        let Some(implementation) = &x.implementation else {
            return Ok(None);
        };
        if !self.is_of(x) {
            return Ok(None);
        }
        self.implementations.dotted_value(
            alloc,
            x.type_name.spelling.as_str(),
            implementation.spelling.as_str(),
        )
    }

    /// The number of a port of a type, or of a subcomponent of an implementation, by its name.
    pub fn member(
        &self,
        alloc: Global,
        number: usize,
        name: &str,
    ) -> Result<Option<usize>, AllocError>
        ensures { IfOk result (λ member. member
            ≡ member_of (slice_get (placed self.now.tree.now).declarations number) name.now) }
    {
        match self.members.as_slice().get(number) {
            Some(table) => table.value(alloc, name),
            None => Ok(None),
        }
    }

    // Whether a reference is to this package.
    fn is_of(&self, reference: &Reference) -> bool
        ensures { result ≡ spec.is_of (placed self.now.tree.now) (reference_view kept_place reference.now) }
    {
        match reference.qualifiers.as_slice() {
            [] => true,
            [first, others @ ..] => {
                same_word(first, &self.tree.name.first)
                    && same_words(others, self.tree.name.rest.as_slice())
            }
        }
    }
}

// Whether words are the same, one by one.
fn same_words(a: &[Identifier], b: &[Identifier]) -> bool
    ensures { result ≡ spec.same_words (map (identifier_view kept_place) a.now)
        (map (identifier_view kept_place) b.now) }
{
    if a.len() != b.len() {
        return false;
    }
    for at in 0..a.len() {
        if !same_word(&a[at], &b[at]) {
            return false;
        }
    }
    true
}

// Adds a word.
fn add_word(
    alloc: Global,
    table: &mut NameTable<usize>,
    word: &Identifier,
    number: usize,
) -> Result<(), AllocError>
    ensures { OnOk result ((name : List ℕ) → value_of table.new name
        ≡ option_or (value_of table.old name) (if same_name name word.now.spelling then Some number else None)) }
{
    table.add(alloc, word.spelling.as_str(), number)
}

// Adds a declaration to the types, if it is one.
fn add_type(
    alloc: Global,
    types: &mut NameTable<usize>,
    declaration: &Declaration,
    number: usize,
) -> Result<(), AllocError>
    ensures { OnOk result ((name : List ℕ) → value_of types.new name
        ≡ option_or (value_of types.old name)
        (if is_type name (declaration_view kept_place declaration.now) then Some number else None)) }
{
    match declaration {
        Declaration::Type(x) => types.add(alloc, x.name.spelling.as_str(), number),
        Declaration::Implementation(_) => Ok(()),
    }
}

// Adds a declaration to the implementations, if it is one.
fn add_implementation(
    alloc: Global,
    implementations: &mut NameTable<usize>,
    declaration: &Declaration,
    number: usize,
) -> Result<(), AllocError>
    ensures { OnOk result ((name : List ℕ) → value_of implementations.new name
        ≡ option_or (value_of implementations.old name)
        (if is_implementation name (declaration_view kept_place declaration.now) then Some number else None)) }
{
    match declaration {
        Declaration::Type(_) => Ok(()),
        Declaration::Implementation(x) => {
            let name = spelled_implementation(alloc, &x.name)?;
            implementations.add(alloc, name.as_str(), number)
        }
    }
}

// The numbers of the types by their names.
fn types_of(alloc: Global, declarations: &[Declaration]) -> Result<NameTable<usize>, AllocError>
    ensures { IfOk result (λ table. (name : List ℕ) → value_of table name
        ≡ first_number (is_type name) (map (declaration_view kept_place) declarations.now)) }
{
    let mut table = NameTable::new(alloc);
    for (number, declaration) in declarations.iter().enumerate() {
        add_type(alloc, &mut table, declaration, number)?;
    }
    Ok(table)
}

// The numbers of the implementations by their names.
fn implementations_of(
    alloc: Global,
    declarations: &[Declaration],
) -> Result<NameTable<usize>, AllocError>
    ensures { IfOk result (λ table. (name : List ℕ)
        → value_of table name ≡ first_number (is_implementation name)
        (map (declaration_view kept_place) declarations.now)) }
{
    let mut table = NameTable::new(alloc);
    for (number, declaration) in declarations.iter().enumerate() {
        add_implementation(alloc, &mut table, declaration, number)?;
    }
    Ok(table)
}

// The numbers of the members of each declaration.
fn members_of(
    alloc: Global,
    declarations: &[Declaration],
) -> Result<ItemList<NameTable<usize>>, AllocError>
    ensures { IfOk result (λ members. (number : ℕ) (name : List ℕ) → value_of (slice_index_or members number []) name
        ≡ member_of (slice_get (map (declaration_view kept_place) declarations.now) number) name) }
{
    let mut members = ItemList::new(alloc);
    for declaration in declarations {
        members.push(member_numbers(alloc, declaration)?)?;
    }
    Ok(members)
}

// The numbers of ports by their names.
fn port_numbers(alloc: Global, ports: &[Feature]) -> Result<NameTable<usize>, AllocError>
    ensures { IfOk result (λ table. (name : List ℕ)
        → value_of table name ≡ port_named (map (feature_view kept_place) ports.now) name) }
{
    let mut table = NameTable::new(alloc);
    for (number, port) in ports.iter().enumerate() {
        add_word(alloc, &mut table, &port.name, number)?;
    }
    Ok(table)
}

// The numbers of subcomponents by their names.
fn sub_numbers(alloc: Global, subs: &[Subcomponent]) -> Result<NameTable<usize>, AllocError>
    ensures { IfOk result (λ table. (name : List ℕ)
        → value_of table name ≡ sub_named (map (subcomponent_view kept_place) subs.now) name) }
{
    let mut table = NameTable::new(alloc);
    for (number, sub) in subs.iter().enumerate() {
        add_word(alloc, &mut table, &sub.name, number)?;
    }
    Ok(table)
}

// The numbers of the members of a declaration: the ports of a type, or the subcomponents of an
// implementation.
fn member_numbers(alloc: Global, declaration: &Declaration) -> Result<NameTable<usize>, AllocError>
    ensures { IfOk result (λ table. (name : List ℕ)
        → value_of table name ≡ member_of (Some (declaration_view kept_place declaration.now)) name) }
{
    match declaration {
        Declaration::Type(x) => port_numbers(alloc, x.features.as_slice()),
        Declaration::Implementation(x) => sub_numbers(alloc, x.subcomponents.as_slice()),
    }
}
