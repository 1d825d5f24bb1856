// The reader on small captures, each with the parts that it has.
use super::part::Stretch::{LoneByte, Open, Quiet, Selected};
use super::part::{Placed, Reader, Stretch};
use std::process::Abort;
use std::test::Fail;

// Holds the parts of a capture to those expected; the note says what the capture shows.
fn expect(rt: &impl Abort, note: &str, capture: &[u8], parts: &[Placed]) -> Result<(), Fail> {
    let mut reader = Reader::new(capture);
    for part in parts {
        assert_eq!(rt; reader.next().ok_or("a part more")?, *part, "{note}");
    }
    assert!(rt; reader.next().is_none(), "{note}");
    assert!(rt; reader.next().is_none(), "{note}");
    Ok(())
}

// A stretch with the number of its first record.
fn at<'a>(first: usize, stretch: Stretch<'a>) -> Placed<'a> {
    Placed { first, stretch }
}

#[test]
fn parts(rt: HostRuntime) -> Result<(), Fail> {
    expect(&rt, "empty", &[], &[])?;
    expect(&rt, "one byte", &[0], &[at(0, LoneByte(&[0]))])?;
    expect(
        &rt,
        "only quiet",
        &[1, 1, 2, 0],
        &[at(0, Quiet(&[1, 1, 2, 0]))],
    )?;
    expect(
        &rt,
        "0,1 while quiet",
        &[0, 1, 1, 1],
        &[at(0, Quiet(&[0, 1, 1, 1]))],
    )?;
    expect(
        &rt,
        "0,0 while selected",
        &[0, 0, 0, 0, 0, 1],
        &[at(0, Selected(&[0, 0, 0, 0, 0, 1]))],
    )?;
    expect(
        &rt,
        "0,1 and at once 0,0",
        &[0, 0, 0, 1, 0, 0, 0, 1],
        &[
            at(0, Selected(&[0, 0, 0, 1])),
            at(2, Selected(&[0, 0, 0, 1])),
        ],
    )?;
    expect(
        &rt,
        "open at the end",
        &[4, 0, 0, 0, 1, 1],
        &[at(0, Quiet(&[4, 0])), at(1, Open(&[0, 0, 1, 1]))],
    )?;
    expect(
        &rt,
        "open and an odd byte",
        &[0, 0, 1, 1, 0],
        &[at(0, Open(&[0, 0, 1, 1])), at(2, LoneByte(&[0]))],
    )?;
    expect(
        &rt,
        "records that mean nothing",
        &[9, 9, 0, 2, 0, 0, 7, 7, 0, 1, 9, 0, 1],
        &[
            at(0, Quiet(&[9, 9, 0, 2])),
            at(2, Selected(&[0, 0, 7, 7, 0, 1])),
            at(5, Quiet(&[9, 0])),
            at(6, LoneByte(&[1])),
        ],
    )
}
