//! The rules about structs and their members: double declarations and sizes.

ghost use Rattle.std.specs.Prelude.{◌↔◌, ◌<◌, length, map, IsTrue};
ghost use Rattle.fk_syntax.specs.ProgramView.{declared_of};
ghost use Rattle.fk_check_rules.specs.Least.{IsLeast, among};
ghost use Rattle.fk_types_structs.specs.View.{outline_tree};
ghost use Rattle.fk_types_structs.specs.Whole.{structs_in, IsSound};
ghost use Rattle.fk_types_struct_rules.specs.Structs.{IsSecondStruct, IsSecondMember, NameBreaks};
ghost use Rattle.fk_types_struct_rules.specs.Structs.{MemberBreaks, StructBreaks};

use crate::declarations::{declaration_fault, is_too_large};
use fk_check_rules::{Fault, Rule, fault_if, first_of};
use fk_syntax::Declared;
use fk_types_structs::{DataType, Outline, Root, Structs};

// Whether an earlier struct has the same name.
fn is_second_struct(structs: &Structs, index: usize, outline: &Outline) -> bool
    requires { IsSound structs.now }
    ensures { IsTrue result
        ↔ IsSecondStruct (structs_in structs.now) index (outline_tree outline.now) }
{
    match structs.find(outline.name.bytes) {
        Some(earlier) => earlier < index,
        None => false,
    }
}

// Whether an earlier member of the struct has the same name.
fn is_second_member(structs: &Structs, index: usize, place: usize, member: &Declared) -> bool
    requires { IsSound structs.now }
    ensures { IsTrue result
        ↔ IsSecondMember (structs_in structs.now) index place (declared_of member.now) }
{
    match structs.find_member(index, member.name.bytes) {
        Some(earlier) => earlier < place,
        None => false,
    }
}

// The first fault of a struct by its name and its words.
fn name_fault(structs: &Structs, index: usize, outline: &Outline) -> Option<Fault>
    requires sound { IsSound structs.now }
    requires within { index < length (structs_in structs.now) }
    ensures { IsLeast
        (NameBreaks (structs_in structs.now) index (outline_tree outline.now)) result }
{
    let kind = DataType {
        root: Root::Struct(index as u32),
        stars: 0,
        length: None,
    };
    let place = outline.name.place;
    let is_second = is_second_struct(structs, index, outline);
    let second = fault_if(Rule::DeclaredTwice, place, is_second);
    let large = fault_if(Rule::WrongSize, place, is_too_large(structs, &kind));
    first_of(second, large)
}

// The first fault of a member.
fn member_fault(structs: &Structs, index: usize, place: usize, member: &Declared) -> Option<Fault>
    requires { IsSound structs.now }
    ensures { IsLeast
        (MemberBreaks (structs_in structs.now) index place (declared_of member.now)) result }
{
    let is_second = is_second_member(structs, index, place, member);
    let second = fault_if(Rule::DeclaredTwice, member.name.place, is_second);
    first_of(second, declaration_fault(structs, member))
}

// The first fault among the members of a struct.
fn members_fault(structs: &Structs, index: usize, members: &[Declared]) -> Option<Fault>
    requires { IsSound structs.now }
    ensures { IsLeast
        (among (MemberBreaks (structs_in structs.now) index) (map declared_of members.now)) result }
{
    let mut fault = None;
    for (place, member) in members.iter().enumerate() {
        fault = first_of(fault, member_fault(structs, index, place, member));
    }
    fault
}

// The first fault of a struct by its name, its words and its members.
fn struct_fault(structs: &Structs, index: usize, outline: &Outline) -> Option<Fault>
    requires sound { IsSound structs.now }
    requires within { index < length (structs_in structs.now) }
    ensures { IsLeast
        (StructBreaks (structs_in structs.now) index (outline_tree outline.now)) result }
{
    let members = members_fault(structs, index, outline.members);
    first_of(name_fault(structs, index, outline), members)
}

/// The first fault of structs by their names, words and members.
pub(crate) fn declared_fault(structs: &Structs) -> Option<Fault>
    requires { IsSound structs.now }
    ensures { IsLeast
        (among (StructBreaks (structs_in structs.now)) (structs_in structs.now)) result }
{
    let mut fault = None;
    let outlines = structs.outlines();
    for (index, outline) in outlines.iter().enumerate() {
        fault = first_of(fault, struct_fault(structs, index, outline));
    }
    fault
}
