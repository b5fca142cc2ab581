//! Literals with their known bits.
use crate::{f32_bits, f64_bits};
use std::test::Fail;

#[test]
fn literals(rt: HostRuntime) -> Result<(), Fail> {
    let alloc = rt.alloc();
    assert_eq!(rt; f64_bits(alloc, "0.1")?, Some(0x3fb9_9999_9999_999a));
    assert_eq!(rt; f32_bits(alloc, "-0x1.fffffep+127")?, Some(0xff7f_ffff));
    assert_eq!(rt; f32_bits(alloc, "nan:0x40_0001")?, Some(0x7fc0_0001));
    assert_eq!(rt;
        f64_bits(alloc, "1_0.5_0e-1_0")?,
        Some(0x3e12_09f2_e6f5_9483)
    );
    assert_eq!(rt; f64_bits(alloc, "1e309")?, None);
    Ok(())
}
