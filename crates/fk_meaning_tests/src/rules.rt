use fk_check_rules::{Fault, Rule, first_of};
use fk_syntax::Place;

fn fault(line: u32, column: u32, rule: Rule) -> Fault {
    Fault {
        place: Place { line, column },
        rule,
    }
}

static NUMBERS: [(Rule, u8); 4] = [
    (Rule::Undeclared, 1),
    (Rule::NoStruct, 6),
    (Rule::WholeAssigned, 20),
    (Rule::SharedParameter, 40),
];

#[test]
fn rules_have_their_numbers(rt: HostRuntime) {
    for (rule, number) in &NUMBERS {
        assert!(rt; rule.number() == *number, "{number}");
    }
}

#[test]
fn lines_count_before_columns_and_columns_before_rules(rt: HostRuntime) {
    let rows = [
        fault(1, 9, Rule::NoStruct),
        fault(2, 3, Rule::NoVariable),
        fault(2, 3, Rule::WrongSize),
        fault(2, 10, Rule::Undeclared),
    ];
    for (index, first) in rows.iter().enumerate() {
        for second in &rows[index..] {
            assert!(rt; first_of(Some(*first), Some(*second)) == Some(*first));
            assert!(rt; first_of(Some(*second), Some(*first)) == Some(*first));
        }
        assert!(rt; first_of(None, Some(*first)) == Some(*first));
        assert!(rt; first_of(Some(*first), None) == Some(*first));
    }
    assert!(rt; first_of(None, None).is_none());
}
