use super::*;
use std::test::Fail;

#[test]
fn the_words_are_the_generators(rt: HostRuntime) -> Result<(), Fail> {
    let mut source = Seeded::new(42, 54);
    assert_eq!(rt; source.word(), 0x86b1_da1d_7206_2b68);
    assert_eq!(rt; source.word(), 0x1304_aa46_c985_3d39);
    assert_eq!(rt; source.word(), 0xa367_0e9e_0dd5_0358);
    assert_eq!(rt; source.word(), 0xf909_0e52_9a7d_ae00);
    assert_eq!(rt; source.word(), 0xc85b_9fd8_3799_6f2c);
    assert_eq!(rt; source.word(), 0x6061_21f8_e391_9196);
    Ok(())
}

#[test]
fn a_bent_draw_is_counted(rt: HostRuntime) -> Result<(), Fail> {
    let mut source = Seeded::new(80_923, 1);
    assert_eq!(rt; source.below((1 << 63) + 1), Ok(3_792_171_389_352_692_203));
    assert_eq!(rt; source.bent(), 1);
    assert_eq!(rt; source.word(), 0x4cc8_80b5_eda8_7c5f);
    Ok(())
}

#[test]
fn a_copy_goes_on_at_its_place(rt: HostRuntime) -> Result<(), Fail> {
    let mut source = Seeded::new(42, 54);
    let fresh = source.copy(rt.alloc())?;
    assert_eq!(rt; source.below(1), Ok(0));
    assert!(rt; source.same(&fresh));
    assert_eq!(rt; source.below(16), Ok(8));
    assert!(rt; !source.same(&fresh));
    let mut copy = source.copy(rt.alloc())?;
    assert!(rt; copy.same(&source));
    assert_eq!(rt; copy.below(16), Ok(1));
    assert!(rt; !fresh.same(&Seeded::new(42, 55)));
    Ok(())
}
