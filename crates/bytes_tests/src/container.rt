//! A container from outside, written and read.

use dx_container::{ContainerFault, PackInfo, pack, unpack};
use std::test::Fail;

/// The smallest bitcode.
const BITCODE: [u8; 4] = [66, 67, 192, 222];

/// Its container, of shader model 6.2 and with wave operations, which `obj2yaml` and `yaml2obj` of LLVM
/// give back byte for byte.
const CONTAINER: [u8; 132] = [
    68, 88, 66, 67, 0, 0, 0, 0, 0, 0, 0, 0, 0, 0, 0, 0, 0, 0, 0, 0, 1, 0, 0, 0, 132, 0, 0, 0, 4, 0,
    0, 0, 48, 0, 0, 0, 64, 0, 0, 0, 80, 0, 0, 0, 96, 0, 0, 0, 83, 70, 73, 48, 8, 0, 0, 0, 0, 64, 0,
    0, 0, 0, 0, 0, 73, 83, 71, 49, 8, 0, 0, 0, 0, 0, 0, 0, 8, 0, 0, 0, 79, 83, 71, 49, 8, 0, 0, 0,
    0, 0, 0, 0, 8, 0, 0, 0, 68, 88, 73, 76, 28, 0, 0, 0, 98, 0, 5, 0, 7, 0, 0, 0, 68, 88, 73, 76,
    2, 1, 0, 0, 16, 0, 0, 0, 4, 0, 0, 0, 66, 67, 192, 222,
];

#[test]
fn packs(rt: HostRuntime) -> Result<(), Fail> {
    let info = PackInfo {
        minor: 2,
        waves: true,
    };
    let bytes = pack(rt.alloc(), &BITCODE, &info)?;
    assert_eq!(rt; bytes.as_slice(), CONTAINER.as_slice());
    Ok(())
}

#[test]
fn unpacks(rt: HostRuntime) -> Result<(), Fail> {
    let content = unpack(&CONTAINER)?;
    assert_eq!(rt; content.bitcode, BITCODE.as_slice());
    assert_eq!(rt; content.major, 6);
    assert_eq!(rt; content.minor, 2);
    Ok(())
}

/// The first fault of some bytes, as kind and place.
fn first_fault(bytes: &[u8]) -> Option<(u8, u64)> {
    match unpack(bytes) {
        Ok(_) => None,
        Err(ContainerFault { kind, offset }) => Some((kind, offset)),
    }
}

#[test]
fn names_the_first_fault(rt: HostRuntime) {
    assert_eq!(rt; first_fault(&[]), Some((1, 0)));
    assert_eq!(rt; first_fault(&CONTAINER[..31]), Some((1, 31)));
    assert_eq!(rt; first_fault(&CONTAINER[..131]), Some((4, 24)));
    for (at, value, kind, offset) in [
        (0, 69, 2, 0),
        (22, 1, 3, 20),
        (28, 26, 5, 28),
        (36, 125, 6, 36),
        (96, 69, 7, 28),
        (106, 4, 8, 104),
        (104, 112, 8, 104),
        (108, 8, 8, 108),
        (112, 69, 8, 112),
        (120, 20, 8, 120),
        (124, 5, 8, 124),
    ] {
        let mut bytes = CONTAINER;
        assert!(rt; at < bytes.len());
        bytes[at] = value;
        assert_eq!(rt; first_fault(&bytes), Some((kind, offset)), "at {at}");
    }
}
