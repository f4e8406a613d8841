//! Refusals.
use terms::{Layer, Part, Refusal, earlier};

#[test]
fn the_full_part_decides_the_layer(rt: HostRuntime) {
    let finder = Refusal::NoSoftPlace(Part::Finder);
    let maker = Refusal::NoSoftPlace(Part::CoverMaker);
    assert!(rt; finder.number() == 11 && maker.number() == 11);
    assert_eq!(rt; finder.layer(), Some(Layer::Finder));
    assert_eq!(rt; maker.layer(), Some(Layer::CoverMaker));
}

#[test]
fn the_earlier_refusal_is_the_one_that_is_checked_first(rt: HostRuntime) {
    let zero = Some(Refusal::ZeroWeight);
    let full = Some(Refusal::NoSoftPlace(Part::Finder));
    assert_eq!(rt; earlier(full, zero), zero);
    assert_eq!(rt; earlier(zero, full), zero);
    assert_eq!(rt;
        earlier(Some(Refusal::NoSoftPlace(Part::CoverMaker)), full),
        full,
        "the finder's places are checked first"
    );
    assert_eq!(rt; earlier(None, full), full);
    assert_eq!(rt; earlier(full, None), full);
    assert_eq!(rt; earlier(None, None), None);
}
