//! Literals, clauses and assignments.
use terms::{first_bad_literal, is_binary, satisfies};

#[test]
fn a_clause_needs_a_true_literal(rt: HostRuntime) {
    assert!(rt; satisfies(&[0, 0], &[1, -2]));
    assert!(rt; !satisfies(&[0, 0], &[1, 2]));
    assert!(rt;
        !satisfies(&[0, 0], &[]),
        "no literal is true in the empty clause"
    );
    assert!(rt;
        satisfies(&[1], &[-1, 1]),
        "opposites are satisfied by everything"
    );
}

#[test]
fn an_assignment_is_zeros_and_ones(rt: HostRuntime) {
    assert!(rt; is_binary(&[]));
    assert!(rt; is_binary(&[0, 1, 1]));
    assert!(rt; !is_binary(&[0, 1, 2]));
    assert!(rt; !is_binary(&[255, 1]));
}

#[test]
fn a_literal_without_a_value_is_not_true(rt: HostRuntime) {
    assert!(rt; !satisfies(&[], &[0]));
    assert!(rt; !satisfies(&[1, 0], &[3, -3]), "there is no variable 3");
    assert!(rt;
        !satisfies(&[7], &[1, -1]),
        "a byte that is neither 0 nor 1"
    );
    assert!(rt; !satisfies(&[1], &[i32::MIN, i32::MAX]));
}

#[test]
fn the_first_bad_literal_is_found(rt: HostRuntime) {
    assert_eq!(rt; first_bad_literal(&[1, -256, 256], 256), None);
    assert_eq!(rt; first_bad_literal(&[1, -257, 0], 256), Some(1));
    assert_eq!(rt; first_bad_literal(&[-1, 0, 0], 1), Some(1));
    assert_eq!(rt; first_bad_literal(&[i32::MIN], 256), Some(0));
    assert_eq!(rt; first_bad_literal(&[1], 0), Some(0));
}
