//! Clause tables, through the finder that counts through.
use clause_tables::ClauseRecord;
use finder_count::CountThrough;
use finders::{Answer, Finder};
use std::test::Fail;
use terms::{Part, Refusal, SoftSet};

#[test]
fn a_clause_has_at_most_64_literals(rt: HostRuntime) {
    let mut records = [ClauseRecord::blank(); 2];
    let mut literals = [0; 128];
    let mut finder = CountThrough::new(&mut records, &mut literals, 1);
    assert_eq!(rt; finder.add_hard(&[1; 65]), Err(Refusal::ClauseTooLong));
    assert_eq!(rt; finder.add_soft(&[0; 65]), Err(Refusal::ClauseTooLong));
    assert_eq!(rt; finder.add_hard(&[1; 64]), Ok(()));
    assert_eq!(rt; finder.add_soft(&[-1; 64]), Ok(()));
    assert_eq!(rt;
        finder.hard_refusal(&[2]),
        Some(Refusal::BadLiteral),
        "the literal counts before the places"
    );
    assert_eq!(rt; finder.hard_refusal(&[]), Some(Refusal::NoClausePlace));
}

#[test]
fn there_are_64_soft_places(rt: HostRuntime) -> Result<(), Fail> {
    let mut records = [ClauseRecord::blank(); 65];
    let mut literals = [0; 65];
    let mut finder = CountThrough::new(&mut records, &mut literals, 1);
    for _ in 0..64 {
        assert_eq!(rt; finder.add_soft(&[1]), Ok(()));
    }
    assert_eq!(rt; finder.soft_count(), 64);
    assert_eq!(rt;
        finder.add_soft(&[1]),
        Err(Refusal::NoSoftPlace(Part::Finder))
    );
    assert_eq!(rt; finder.add_hard(&[-1]), Ok(()));
    assert_eq!(rt;
        finder.soft_refusal(&[1]),
        Some(Refusal::NoSoftPlace(Part::Finder)),
        "the soft place counts before the clause place"
    );
    let broken = finder.broken(&[0]).ok().ok_or("refused")?;
    assert_eq!(rt; broken.len(), 64);
    Ok(())
}

#[test]
fn tables_of_no_place_and_of_one(rt: HostRuntime) {
    let mut finder = CountThrough::new(&mut [], &mut [], 1);
    assert_eq!(rt; finder.add_hard(&[]), Err(Refusal::NoClausePlace));
    assert_eq!(rt; finder.add_soft(&[]), Err(Refusal::NoClausePlace));
    let mut records = [ClauseRecord::blank()];
    let mut literals = [0];
    let mut finder = CountThrough::new(&mut records, &mut literals, 1);
    assert_eq!(rt; finder.add_hard(&[1, 1]), Err(Refusal::NoClausePlace));
    assert_eq!(rt; finder.add_hard(&[1]), Ok(()));
    assert_eq!(rt; finder.add_hard(&[]), Err(Refusal::NoClausePlace));
    let mut buffer = [0, 7];
    let answer = finder.ask(SoftSet::empty(), &mut buffer);
    assert_eq!(rt; answer, Ok(Answer::Model));
    assert_eq!(rt; buffer, [1, 7]);
}

#[test]
fn without_variables_there_is_one_assignment(rt: HostRuntime) {
    let mut records = [ClauseRecord::blank(); 2];
    let mut literals = [0; 2];
    let mut finder = CountThrough::new(&mut records, &mut literals, 0);
    assert_eq!(rt; CountThrough::check(0), Ok(()));
    assert_eq!(rt; finder.hard_refusal(&[1]), Some(Refusal::BadLiteral));
    assert_eq!(rt; finder.ask(SoftSet::empty(), &mut []), Ok(Answer::Model));
    assert_eq!(rt; finder.add_hard(&[]), Ok(()));
    assert_eq!(rt;
        finder.ask(SoftSet::empty(), &mut []),
        Ok(Answer::Core(SoftSet::empty()))
    );
}

#[test]
fn sixteen_variables_are_taken_and_seventeen_are_not(rt: HostRuntime) {
    assert_eq!(rt; CountThrough::check(16), Ok(()));
    assert_eq!(rt; CountThrough::check(17), Err(Refusal::TooManyVariables));
    let mut records = [ClauseRecord::blank(); 2];
    let mut literals = [0; 2];
    let mut finder = CountThrough::new(&mut records, &mut literals, 16);
    assert_eq!(rt; finder.add_hard(&[16]), Ok(()));
    let mut buffer = [0; 16];
    assert_eq!(rt;
        finder.ask(SoftSet::empty(), &mut buffer),
        Ok(Answer::Model)
    );
    assert!(rt; buffer[0] == 0 && buffer[15] == 1);
    assert_eq!(rt;
        finder.ask(SoftSet::empty(), &mut [0; 15]),
        Err(Refusal::TooShort)
    );
    let mut records = [ClauseRecord::blank(); 2];
    let mut literals = [0; 2];
    let finder = CountThrough::new(&mut records, &mut literals, 17);
    assert_eq!(rt; finder.variables(), 0);
    assert_eq!(rt;
        finder.soft_refusal(&[]),
        Some(Refusal::NoSoftPlace(Part::Finder))
    );
    assert_eq!(rt; finder.hard_refusal(&[]), Some(Refusal::NoClausePlace));
}
