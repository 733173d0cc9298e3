//! Costs and choices that are known by hand.

use base_core::Sequence;
use hl_meaning::{Copying, HlType, Kind};
use hl_overload::{Candidate, ChoiceFault, Param, choose, cost};
use sqlite_items::Boxed;
use std::test::Fail;

#[test]
fn adds_the_costs_of_kind_and_size(rt: HostRuntime) -> Result<(), Fail> {
    let uint3 = HlType::Vector(Kind::Uint, 3);
    assert_eq!(rt; cost(&HlType::Scalar(Kind::Bool), &uint3), Some(6));
    let uint2 = HlType::Vector(Kind::Uint, 2);
    assert_eq!(rt; cost(&HlType::Vector(Kind::Int, 4), &uint2), Some(9));
    let element = Boxed::new(rt.alloc(), HlType::Scalar(Kind::Int))?;
    let array = HlType::Array(element, 4);
    assert_eq!(rt; cost(&array, &HlType::Scalar(Kind::Int)), None);
    Ok(())
}

/// A candidate with one parameter.
fn candidate(rt: &HostRuntime, ty: HlType, copying: Copying) -> Result<Candidate, Fail> {
    let mut params = Sequence::new(rt.alloc());
    params.push(Param { ty, copying })?;
    Ok(Candidate { params })
}

#[test]
fn chooses_the_least_sum(rt: HostRuntime) -> Result<(), Fail> {
    assert_eq!(rt; choose(&[], &[]), Err(ChoiceFault::NoMatch));
    let candidates = [
        candidate(&rt, HlType::Scalar(Kind::Bool), Copying::CopyOut)?,
        candidate(&rt, HlType::Scalar(Kind::Int), Copying::CopyIn)?,
        candidate(&rt, HlType::Scalar(Kind::Uint), Copying::CopyIn)?,
    ];
    let uint = [HlType::Scalar(Kind::Uint)];
    assert_eq!(rt; choose(&candidates, &uint), Ok(2));
    let uint3 = [HlType::Vector(Kind::Uint, 3)];
    assert_eq!(rt; choose(&candidates[..1], &uint3), Err(ChoiceFault::NoMatch));
    let bools = [HlType::Vector(Kind::Bool, 2)];
    let ambiguous = ChoiceFault::Ambiguous {
        first: 1,
        second: 2,
    };
    assert_eq!(rt; choose(&candidates, &bools), Err(ambiguous));
    Ok(())
}
