use super::*;
use draw_split::Weights;
use std::test::Fail;

#[test]
fn a_profile_has_a_line_of_each_kind(rt: HostRuntime) -> Result<(), Fail> {
    let counts = ProfileCounts {
        selected: Weights::new(&[0, 12]),
        all: Weights::new(&[3, 20]),
    };
    let text = profile_text(rt.alloc(), &counts)?;
    assert_eq!(rt; text.as_slice(), &b"selected 0 12\nall 3 20\n"[..]);
    Ok(())
}
