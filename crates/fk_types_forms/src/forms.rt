//! The forms of expressions, made of their parts.

ghost use Rattle.std.specs.Prelude.{◌≡◌, ◌&&◌, true, false, is_none, List, slice_get};
ghost use Rattle.std.specs.Option.{option_map};
ghost use Rattle.fk_syntax.specs.View.{named, type_of};
ghost use Rattle.fk_check_rules.specs.declared.rule.Rule.TheVariants as rules;
ghost use Rattle.fk_check_rules.specs.Least.{IsLeast, either};
ghost use Rattle.fk_types_structs.specs.Whole.{IsSound};
ghost use Rattle.fk_types_judgments.specs.Term as m;
ghost use Rattle.fk_types_judgments.specs.Term.{Term, Terms};
ghost use Rattle.fk_syntax.specs.Tree.{Named};
ghost use Rattle.fk_types_judgments.specs.Names as n;
ghost use Rattle.fk_types_judgments.specs.Names.{Env};
ghost use Rattle.fk_types_judgments.specs.Typing as y;
ghost use Rattle.fk_types_judgments.specs.Broken as b;
ghost use Rattle.fk_types_forms.specs.Scope.{parameter_of, meant_of, env_in};
ghost use Rattle.fk_types_forms.specs.Parts.{IsPart, AreArguments};

use crate::calls::{Parameter, does_fit, is_not_taken};
use crate::names::{Scope, Thing};
use crate::operands::{
    address, are_not_chosen, are_not_joined, assigned, branched, cast_type, computed, counted_type,
    element, is_array, is_no_integer, is_no_pointer, is_no_value_type, is_not_assigned,
    is_not_counted, is_not_prefixed, joined, last_of, pointed_by, sizeof_type, struct_at,
    struct_in, with_prefix,
};
use crate::parts::{Arguments, Part, made, stored};
use fk_check_rules::{Fault, Rule, fault_if, first_of};
use fk_syntax::{Name, Place, Sign, Spot, TypeName};
use fk_types_operators::{ExpressionType, Value};
use fk_types_struct_rules::{no_struct, sizeof_fault};

pub fn number<'a>(spot: Spot, value: u32, unsigned: bool) -> Part<'a>
    ensures { (env : Env) → IsPart env (m.Number spot value unsigned) result }
{
    let kind = if unsigned {
        Value::Unsigned
    } else {
        Value::Int
    };
    Part {
        kind: Some(ExpressionType::Computed(kind)),
        first: spot.place,
        is_zero: value == 0,
        is_no_target: true,
        name: None,
        fault: None,
    }
}

pub fn puts<'a>(spot: Spot) -> Part<'a>
    ensures { (env : Env) → IsPart env (m.Puts spot) result }
{
    made(Some(ExpressionType::Nothing), spot.place, None)
}

pub fn group_number<'a>(spot: Spot) -> Part<'a>
    ensures number { (env : Env) → IsPart env (m.GroupNumber spot) result }
    ensures rank { (env : Env) → IsPart env (m.GroupRank spot) result }
{
    made(Some(ExpressionType::Computed(Value::Int)), spot.place, None)
}

pub fn size<'a>(scope: &Scope, spot: Spot, kind: &TypeName) -> Part<'a>
    requires { IsSound scope.now.structs.now }
    ensures { IsPart (env_in scope.now) (m.Sizeof spot (type_of kind.now)) result }
{
    let size = sizeof_type(scope.structs.type_of(kind, None));
    made(
        size,
        spot.place,
        sizeof_fault(scope.structs, kind, spot.place),
    )
}

// The fault of a name that isn't called.
fn name_fault(thing: Thing, place: Place) -> Option<Fault>
    ensures { IsLeast (b.NameBreaks (meant_of thing.entry) place) result }
{
    let undeclared = fault_if(Rule::Undeclared, place, thing.is_undeclared());
    first_of(
        undeclared,
        fault_if(Rule::NoFunction, place, thing.is_called()),
    )
}

// The fault of a name that is called.
fn called_name_fault(thing: Thing, place: Place) -> Option<Fault>
    ensures { IsLeast (b.CalledNameBreaks (meant_of thing.entry) place) result }
{
    let undeclared = fault_if(Rule::Undeclared, place, thing.is_undeclared());
    first_of(
        undeclared,
        fault_if(Rule::MainCalled, place, thing.is_main()),
    )
}

pub fn name<'a>(scope: &Scope, name: Name<'a>) -> Part<'a>
    ensures { IsPart (env_in scope.now) (m.Use (named name.entry)) result }
{
    let thing = scope.look_up(&name);
    Part {
        kind: thing.name_type(),
        first: name.place,
        is_zero: false,
        is_no_target: thing.is_constant(),
        name: Some(name),
        fault: name_fault(thing, name.place),
    }
}

fn signed<'a>(spot: Spot, sign: Sign, operand: Part) -> Part<'a>
    ensures { (env : Env) (t : Term) → IsPart env t operand.entry
        → IsPart env (m.Prefix spot sign t) result }
{
    let value = operand.value();
    let own = fault_if(
        Rule::WrongOperands,
        spot.place,
        is_not_prefixed(sign, value),
    );
    let fault = first_of(operand.as_value(), own);
    made(computed(with_prefix(sign, value)), spot.place, fault)
}

fn dereference<'a>(spot: Spot, pointer: Part) -> Part<'a>
    ensures { (env : Env) (t : Term) → IsPart env t pointer.entry →
        IsPart env (m.Dereference spot t) result }
{
    let value = pointer.value();
    let own = fault_if(Rule::NoPointer, spot.place, is_no_pointer(value));
    stored(
        pointed_by(value),
        spot.place,
        first_of(pointer.as_value(), own),
    )
}

fn address_of<'a>(spot: Spot, place: Part) -> Part<'a>
    ensures { (env : Env) (t : Term) → IsPart env t place.entry →
        IsPart env (m.Address spot t) result }
{
    let own = fault_if(Rule::NoTarget, spot.place, place.is_no_target);
    let kind = address(place.is_no_target, place.kind);
    made(kind, spot.place, first_of(place.fault, own))
}

fn count_fault(spot: Spot, place: &Part) -> Option<Fault>
    ensures { (env : Env) (t : Term) → IsPart env t place.now → IsLeast
        (either (b.TargetBreaks env spot t) (either (b.WholeBreaks env spot t)
        (b.where_so rules.WrongOperands spot.place
        (b.is_such b.is_not_counted (y.type_of env t))))) result }
{
    let target = fault_if(Rule::NoTarget, spot.place, place.is_no_target);
    let whole = fault_if(Rule::WholeAssigned, spot.place, is_array(place.kind));
    let own = fault_if(Rule::WrongOperands, spot.place, is_not_counted(place.kind));
    first_of(target, first_of(whole, own))
}

fn counted_before<'a>(spot: Spot, place: Part) -> Part<'a>
    ensures { (env : Env) (t : Term) → IsPart env t place.entry →
        IsPart env (m.Count spot true t) result }
{
    let kind = counted_type(place.is_no_target, place.kind);
    made(
        kind,
        spot.place,
        first_of(place.fault, count_fault(spot, &place)),
    )
}

pub fn counted_after<'a>(spot: Spot, place: Part) -> Part<'a>
    ensures { (env : Env) (t : Term) → IsPart env t place.entry →
        IsPart env (m.Count spot false t) result }
{
    let kind = counted_type(place.is_no_target, place.kind);
    made(
        kind,
        place.first,
        first_of(place.fault, count_fault(spot, &place)),
    )
}

/// An expression with a sign in front.
pub fn prefix<'a>(spot: Spot, sign: Sign, operand: Part) -> Part<'a>
    ensures { (env : Env) (t : Term) → IsPart env t operand.entry →
        IsPart env (m.prefix_term spot sign t) result }
{
    match sign {
        Sign::Star => dereference(spot, operand),
        Sign::Ampersand => address_of(spot, operand),
        Sign::Increment | Sign::Decrement => counted_before(spot, operand),
        _ => signed(spot, sign, operand),
    }
}

pub fn cast<'a>(scope: &Scope, spot: Spot, kind: &TypeName, operand: Part) -> Part<'a>
    requires { IsSound scope.now.structs.now }
    ensures { (t : Term) → IsPart (env_in scope.now) t operand.entry →
        IsPart (env_in scope.now) (m.Cast spot (type_of kind.now) t) result }
{
    let own = fault_if(Rule::WrongOperands, spot.place, is_no_value_type(kind));
    let fault = first_of(
        operand.as_value(),
        first_of(no_struct(scope.structs, kind), own),
    );
    let kind = cast_type(scope.structs.type_of(kind, None), operand.value());
    made(kind, spot.place, fault)
}

fn binary<'a>(spot: Spot, sign: Sign, left: Part, right: Part) -> Part<'a>
    ensures { (env : Env) (l r : Term) → IsPart env l left.entry → IsPart env r right.entry →
        IsPart env (m.Binary spot sign l r) result }
{
    let operands = (left.operand(), right.operand());
    let refused = are_not_joined(sign, operands.0, operands.1);
    let own = fault_if(Rule::WrongOperands, spot.place, refused);
    let fault = first_of(first_of(left.as_value(), right.as_value()), own);
    made(
        computed(joined(sign, operands.0, operands.1)),
        left.first,
        fault,
    )
}

fn comma<'a>(left: Part, right: Part) -> Part<'a>
    ensures { (env : Env) (spot : Spot) (l r : Term) → IsPart env l left.entry
        → IsPart env r right.entry → IsPart env (m.Comma spot l r) result }
{
    let fault = first_of(left.as_statement(), right.as_statement());
    made(last_of(left.kind, right.kind), left.first, fault)
}

/// A sign between two expressions.
pub fn with_sign<'a>(spot: Spot, sign: Sign, left: Part, right: Part) -> Part<'a>
    ensures { (env : Env) (l r : Term) → IsPart env l left.entry → IsPart env r right.entry →
        IsPart env (m.joined_term spot sign l r) result }
{
    match sign {
        Sign::Comma => comma(left, right),
        _ => binary(spot, sign, left, right),
    }
}

pub fn index<'a>(spot: Spot, whole: Part, by: Part) -> Part<'a>
    ensures { (env : Env) (w t : Term) → IsPart env w whole.entry → IsPart env t by.entry →
        IsPart env (m.Index spot w t) result }
{
    let pointer = fault_if(Rule::NoPointer, spot.place, is_no_pointer(whole.value()));
    let integer = fault_if(Rule::WrongOperands, spot.place, is_no_integer(by.value()));
    let inner = first_of(whole.as_value(), by.as_value());
    let fault = first_of(inner, first_of(pointer, integer));
    stored(element(whole.value(), by.value()), whole.first, fault)
}

// The position of a member in its struct.
fn member_place(scope: &Scope, index: Option<usize>, member: Name) -> Option<usize>
    requires { IsSound scope.now.structs.now }
    ensures { result ≡ y.member_place (env_in scope.now) index (named member.entry) }
{
    scope.structs.find_member(index?, member.bytes)
}

// The type of a member of a struct.
fn member_type(scope: &Scope, index: Option<usize>, place: Option<usize>) -> Option<ExpressionType>
    ensures { (member : Named) → place ≡ y.member_place (env_in scope.now) index member
        → result ≡ y.member_type (env_in scope.now) index member }
{
    match scope.member_type(index?, place?) {
        Some(kind) => Some(ExpressionType::Stored(kind)),
        None => None,
    }
}

// Whether there is a type but no member.
fn is_missing(is_typed: bool, place: Option<usize>) -> bool
    ensures { result ≡ (is_typed && is_none place) }
{
    is_typed && place.is_none()
}

/// A member of a struct.
pub fn member<'a>(scope: &Scope, spot: Spot, whole: Part, member: Name) -> Part<'a>
    requires { IsSound scope.now.structs.now }
    ensures { (w : Term) → IsPart (env_in scope.now) w whole.entry →
        IsPart (env_in scope.now) (m.Member spot w (named member.entry)) result }
{
    let index = struct_in(whole.kind);
    let place = member_place(scope, index, member);
    let missing = is_missing(whole.kind.is_some(), place);
    let fault = first_of(whole.fault, fault_if(Rule::NoMember, spot.place, missing));
    stored(member_type(scope, index, place), whole.first, fault)
}

/// A member of the struct that a pointer points to.
pub fn through<'a>(scope: &Scope, spot: Spot, pointer: Part, member: Name) -> Part<'a>
    requires { IsSound scope.now.structs.now }
    ensures { (w : Term) → IsPart (env_in scope.now) w pointer.entry →
        IsPart (env_in scope.now) (m.Through spot w (named member.entry)) result }
{
    let value = pointer.value();
    let index = struct_at(value);
    let place = member_place(scope, index, member);
    let missing = is_missing(value.is_some(), place);
    let fault = first_of(
        pointer.as_value(),
        fault_if(Rule::NoMember, spot.place, missing),
    );
    stored(member_type(scope, index, place), pointer.first, fault)
}

fn assign_rule(sign: Sign) -> Rule
    ensures { result ≡ b.assign_rule sign }
{
    match sign {
        Sign::Assign => Rule::NoConversion,
        _ => Rule::WrongOperands,
    }
}

fn assign_fault(spot: Spot, sign: Sign, place: &Part, value: &Part) -> Option<Fault>
    ensures { (env : Env) (p v : Term) → IsPart env p place.now → IsPart env v value.now → IsLeast
        (either (b.TargetBreaks env spot p) (either (b.WholeBreaks env spot p)
        (b.where_so (b.assign_rule sign) spot.place (b.is_not_assigned sign (y.type_of env p)
        (y.operand_in (y.is_zero v) (y.type_of env v)))))) result }
{
    let target = fault_if(Rule::NoTarget, spot.place, place.is_no_target);
    let whole = fault_if(Rule::WholeAssigned, spot.place, is_array(place.kind));
    let refused = is_not_assigned(sign, place.kind, value.operand());
    first_of(
        target,
        first_of(whole, fault_if(assign_rule(sign), spot.place, refused)),
    )
}

pub fn assign<'a>(spot: Spot, sign: Sign, place: Part, value: Part) -> Part<'a>
    ensures { (env : Env) (p v : Term) → IsPart env p place.entry → IsPart env v value.entry →
        IsPart env (m.Assign spot sign p v) result }
{
    let kind = assigned(place.is_no_target, sign, place.kind, value.operand());
    let inner = first_of(place.fault, value.as_value());
    let fault = first_of(inner, assign_fault(spot, sign, &place, &value));
    made(kind, place.first, fault)
}

pub fn choose<'a>(spot: Spot, condition: Part, first: Part, second: Part) -> Part<'a>
    ensures { (env : Env) (t f s : Term) → IsPart env t condition.entry
        → IsPart env f first.entry → IsPart env s second.entry
        → IsPart env (m.Choose spot t f s) result }
{
    let branches = (first.operand(), second.operand());
    let refused = are_not_chosen(branches.0, branches.1);
    let inner = first_of(first.as_value(), second.as_value());
    let fault = first_of(
        first_of(condition.as_condition(), inner),
        fault_if(Rule::WrongOperands, spot.place, refused),
    );
    let kind = branched(condition.value(), branches.0, branches.1);
    made(kind, condition.first, fault)
}

pub fn no_arguments() -> Arguments
    ensures { (env : Env) (parameters : List n.Parameter)
        → AreArguments env parameters m.no_terms result }
{
    Arguments {
        do_fit: true,
        first: None,
        fault: None,
    }
}

fn are_both(first: bool, second: bool) -> bool
    ensures { result ≡ (first && second) }
{
    first && second
}

// The first one of two values that exists.
fn either_value(first: Option<Value>, second: Option<Value>) -> Option<Value>
    ensures { result ≡ y.either_value first second }
{
    match first {
        Some(value) => Some(value),
        None => second,
    }
}

/// The arguments of a call with one more, for a parameter.
pub fn also(before: Arguments, parameter: Option<Parameter>, last: Part) -> Arguments
    ensures { (env : Env) (parameters : List n.Parameter) (ts : Terms) (t : Term)
        → AreArguments env parameters ts before → IsPart env t last.entry
        → option_map parameter_of parameter ≡ slice_get parameters (m.count_of ts)
        → AreArguments env parameters (m.also ts t) result }
{
    let operand = last.operand();
    let own = fault_if(
        Rule::NoConversion,
        last.first,
        is_not_taken(parameter, operand),
    );
    Arguments {
        do_fit: are_both(before.do_fit, does_fit(parameter, operand)),
        first: either_value(before.first, last.value()),
        fault: first_of(before.fault, first_of(last.as_value(), own)),
    }
}

/// What is called: for a name what it denotes; any other expression isn't a function.
pub fn called<'c>(scope: &Scope<'c, '_, '_>, callee: &Part) -> Thing<'c>
    ensures { (t : Term) → IsPart (env_in scope.now) t callee.now
        → meant_of result ≡ y.called_as (env_in scope.now) t (y.type_of (env_in scope.now) t) }
{
    match callee.name {
        Some(name) => scope.look_up(&name),
        None if callee.kind.is_some() => Thing::Constant(Value::Int),
        None => Thing::Kept(None),
    }
}

// The fault of the called expression.
fn callee_fault(thing: Thing, callee: &Part) -> Option<Fault>
    ensures { (env : Env) (t : Term) → IsPart env t callee.now
        → meant_of thing.entry ≡ y.called_as env t (y.type_of env t)
        → IsLeast (b.as_called env t (b.Broken env t)) result }
{
    match callee.name {
        Some(name) => called_name_fault(thing, name.place),
        None => callee.fault,
    }
}

pub fn call<'a>(
    spot: Spot,
    thing: Thing,
    callee: Part,
    count: usize,
    arguments: Arguments,
) -> Part<'a>
    ensures { (env : Env) (t : Term) (ts : Terms) → IsPart env t callee.entry
        → meant_of thing.entry ≡ y.called_as env t (y.type_of env t) → count ≡ m.count_of ts
        → AreArguments env (y.parameters_of (meant_of thing.entry)) ts arguments
        → IsPart env (m.Call spot t ts) result }
{
    let function = fault_if(Rule::NoFunction, spot.place, thing.is_no_function());
    let number = fault_if(Rule::WrongCount, spot.place, thing.is_wrong_count(count));
    let inner = first_of(callee_fault(thing, &callee), arguments.fault);
    let fault = first_of(inner, first_of(function, number));
    let kind = thing.call_type(count, arguments.do_fit, arguments.first);
    made(kind, callee.first, fault)
}
