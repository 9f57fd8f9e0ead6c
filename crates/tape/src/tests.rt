use super::printed;
use std::process::Abort;
use std::test::Fail;

/// Whether the tape prints the text.
fn prints(rt: &(impl Abort + AllocGlobal), tape: &[u8], text: &str) -> Result<(), Fail> {
    let printed = printed(rt.alloc(), tape)?;
    assert_eq!(rt; printed.as_str(), text);
    Ok(())
}

#[test]
fn a_record_is_cut(rt: HostRuntime) -> Result<(), Fail> {
    prints(&rt, &[], "")?;
    prints(&rt, &[3], "0 33 0 0 0\n")?;
    prints(&rt, &[3, 0, 4], "0 33 0 0 0\n")?;
    prints(&rt, &[3, 0, 4, 0], "0 33 0 0 0\n")?;
    prints(&rt, &[3, 0, 9, 0], "0 33 0 0 0\n")?;
    prints(&rt, &[3, 0, 4, 0, 1], "4 27 0 0 0\n")?;
    prints(&rt, &[3, 0, 4, 0, 1, 3], "4 27 0 0 0\n0 33 0 0 5\n")
}

#[test]
fn a_length_without_room_for_a_kind(rt: HostRuntime) -> Result<(), Fail> {
    prints(&rt, &[0, 0, 4, 0], "0 35 0 0 0\n")?;
    prints(&rt, &[1, 0, 4, 0], "0 35 0 0 0\n")?;
    prints(&rt, &[0, 0, 5, 0], "0 34 0 0 0\n")?;
    prints(&rt, &[1, 0, 0, 0], "0 34 0 0 0\n")
}

#[test]
fn a_length_one_off(rt: HostRuntime) -> Result<(), Fail> {
    for (kind, len) in [
        (1, 10),
        (1, 12),
        (2, 18),
        (2, 20),
        (3, 4),
        (3, 6),
        (4, 2),
        (4, 4),
    ] {
        let mut tape = [0; 22];
        tape[0] = len;
        tape[2] = kind;
        prints(&rt, &tape, "0 35 0 0 0\n")?;
    }
    Ok(())
}

#[test]
fn a_long_tape_does_nothing(rt: HostRuntime) -> Result<(), Fail> {
    let mut tape = [0; 4097];
    prints(&rt, &tape[0..4096], "0 34 0 0 0\n")?;
    prints(&rt, &tape, "0 32 0 0 0\n")?;
    tape[0] = 3;
    tape[2] = 4;
    prints(&rt, &tape[0..4096], "4 27 0 0 0\n0 34 0 0 5\n")?;
    prints(&rt, &tape, "0 32 0 0 0\n")
}
