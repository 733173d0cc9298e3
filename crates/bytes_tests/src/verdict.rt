//! A module without tables: the least broken rule, and the module back.

use base_core::Sequence;
use dx_validate::{Invalid, validate};
use ir_core::{Module, Spot};
use std::test::Fail;

#[test]
fn a_bare_module_breaks_the_least_rule(rt: HostRuntime) -> Result<(), Fail> {
    let triples: [(&[u8], u8); 2] = [(b"x", 1), (b"dxil-ms-dx", 9)];
    for (triple, broken) in triples {
        let module = Module {
            triple: Sequence::from_slice(rt.alloc(), triple)?,
            layout: Sequence::new(rt.alloc()),
            types: Sequence::new(rt.alloc()),
            globals: Sequence::new(rt.alloc()),
            functions: Sequence::new(rt.alloc()),
            consts: Sequence::new(rt.alloc()),
            metas: Sequence::new(rt.alloc()),
            named: Sequence::new(rt.alloc()),
        };
        match validate(module) {
            Err(Invalid::Broken { rule, spot, module }) => {
                assert_eq!(rt; rule, broken);
                assert_eq!(rt; spot, Spot::MODULE);
                assert_eq!(rt; module.triple.as_slice(), triple);
            }
            _ => return Err(Fail::from("a rule is broken")),
        }
    }
    Ok(())
}
