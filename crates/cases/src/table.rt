// Single calls on chips over images of their own.

// A part's name.
#[derive(Clone, Copy)]
pub enum Kind {
    Bench,
    Cm01,
    Cm02,
}

// A part, the length of its image, and its status and lock cell.
#[derive(Clone, Copy)]
pub struct Over(pub Kind, pub usize, pub u8, pub u8);

// A call: an event's kind and level, a capture's records and the room for its answers, a page copy's page, the length of
// its buffer, and the place in it.
#[derive(Clone, Copy)]
pub enum Ask {
    Event(u8, u8),
    Capture(&'static [u8], usize),
    Copy(usize, usize, usize),
}

// A name, the image, a capture made ahead of the call, and the call.
#[derive(Clone, Copy)]
pub struct Row(pub &'static str, pub Over, pub &'static [u8], pub Ask);

const GOOD: Over = Over(Kind::Bench, 4370, 0, 0);

const EMPTY: Ask = Ask::Capture(&[], 0);

// No capture.
const NONE: &[u8] = b"";

// WREN, and a WRSR of 00h that counts.
const WRITING_STATUS: &[u8] =
    b"\x00\x00\x01\x01\x01\x00\x01\x01\x01\x00\x01\x01\x01\x00\x01\x01\x01\x00\x01\x01\x01\x00\x02\x01\x01\x01\x01\x00\x01\x01\x01\x00\x02\x00\x01\x01\x01\x00\x00\x01\x00\x00\x01\x01\x01\x00\x01\x01\x01\x00\x01\x01\x01\x00\x01\x01\x01\x00\x01\x01\x01\x00\x01\x01\x01\x00\x01\x01\x01\x00\x02\x01\x01\x01\x01\x00\x02\x00\x01\x01\x01\x00\x01\x01\x01\x00\x01\x01\x01\x00\x01\x01\x01\x00\x01\x01\x01\x00\x01\x01\x01\x00\x01\x01\x01\x00\x01\x01\x01\x00\x00\x01";

// S falls.
const SELECTED: &[u8] = b"\x00\x00";

// The same, and the cycle ends.
const STATUS_WRITTEN: &[u8] =
    b"\x00\x00\x01\x01\x01\x00\x01\x01\x01\x00\x01\x01\x01\x00\x01\x01\x01\x00\x01\x01\x01\x00\x02\x01\x01\x01\x01\x00\x01\x01\x01\x00\x02\x00\x01\x01\x01\x00\x00\x01\x00\x00\x01\x01\x01\x00\x01\x01\x01\x00\x01\x01\x01\x00\x01\x01\x01\x00\x01\x01\x01\x00\x01\x01\x01\x00\x01\x01\x01\x00\x02\x01\x01\x01\x01\x00\x02\x00\x01\x01\x01\x00\x01\x01\x01\x00\x01\x01\x01\x00\x01\x01\x01\x00\x01\x01\x01\x00\x01\x01\x01\x00\x01\x01\x01\x00\x01\x01\x01\x00\x00\x01\x05\x00";

// WREN, a WRSR that counts, and S falls.
const POLLING: &[u8] =
    b"\x00\x00\x01\x01\x01\x00\x01\x01\x01\x00\x01\x01\x01\x00\x01\x01\x01\x00\x01\x01\x01\x00\x02\x01\x01\x01\x01\x00\x01\x01\x01\x00\x02\x00\x01\x01\x01\x00\x00\x01\x00\x00\x01\x01\x01\x00\x01\x01\x01\x00\x01\x01\x01\x00\x01\x01\x01\x00\x01\x01\x01\x00\x01\x01\x01\x00\x01\x01\x01\x00\x02\x01\x01\x01\x01\x00\x02\x00\x01\x01\x01\x00\x01\x01\x01\x00\x01\x01\x01\x00\x01\x01\x01\x00\x01\x01\x01\x00\x01\x01\x01\x00\x01\x01\x01\x00\x01\x01\x01\x00\x00\x01\x00\x00";

// The same, and HOLD falls.
const POLLING_HELD: &[u8] =
    b"\x00\x00\x01\x01\x01\x00\x01\x01\x01\x00\x01\x01\x01\x00\x01\x01\x01\x00\x01\x01\x01\x00\x02\x01\x01\x01\x01\x00\x01\x01\x01\x00\x02\x00\x01\x01\x01\x00\x00\x01\x00\x00\x01\x01\x01\x00\x01\x01\x01\x00\x01\x01\x01\x00\x01\x01\x01\x00\x01\x01\x01\x00\x01\x01\x01\x00\x01\x01\x01\x00\x02\x01\x01\x01\x01\x00\x02\x00\x01\x01\x01\x00\x01\x01\x01\x00\x01\x01\x01\x00\x01\x01\x01\x00\x01\x01\x01\x00\x01\x01\x01\x00\x01\x01\x01\x00\x01\x01\x01\x00\x00\x01\x00\x00\x04\x00";

// WREN.
const ENABLED: &[u8] =
    b"\x00\x00\x01\x01\x01\x00\x01\x01\x01\x00\x01\x01\x01\x00\x01\x01\x01\x00\x01\x01\x01\x00\x02\x01\x01\x01\x01\x00\x01\x01\x01\x00\x02\x00\x01\x01\x01\x00\x00\x01";

// WREN, and a WRITE of 5Ah at 000580h.
const WRITING_PAGE: &[u8] =
    b"\x00\x00\x01\x01\x01\x00\x01\x01\x01\x00\x01\x01\x01\x00\x01\x01\x01\x00\x01\x01\x01\x00\x02\x01\x01\x01\x01\x00\x01\x01\x01\x00\x02\x00\x01\x01\x01\x00\x00\x01\x00\x00\x01\x01\x01\x00\x01\x01\x01\x00\x01\x01\x01\x00\x01\x01\x01\x00\x01\x01\x01\x00\x01\x01\x01\x00\x02\x01\x01\x01\x01\x00\x02\x00\x01\x01\x01\x00\x01\x01\x01\x00\x01\x01\x01\x00\x01\x01\x01\x00\x01\x01\x01\x00\x01\x01\x01\x00\x01\x01\x01\x00\x01\x01\x01\x00\x01\x01\x01\x00\x01\x01\x01\x00\x01\x01\x01\x00\x01\x01\x01\x00\x01\x01\x01\x00\x01\x01\x01\x00\x02\x01\x01\x01\x01\x00\x02\x00\x01\x01\x01\x00\x02\x01\x01\x01\x01\x00\x01\x01\x01\x00\x02\x00\x01\x01\x01\x00\x01\x01\x01\x00\x01\x01\x01\x00\x01\x01\x01\x00\x01\x01\x01\x00\x01\x01\x01\x00\x01\x01\x01\x00\x01\x01\x01\x00\x02\x01\x01\x01\x01\x00\x02\x00\x01\x01\x01\x00\x02\x01\x01\x01\x01\x00\x01\x01\x01\x00\x02\x00\x01\x01\x01\x00\x02\x01\x01\x01\x01\x00\x02\x00\x01\x01\x01\x00\x00\x01";

// S falls, and HOLD.
const HELD: &[u8] = b"\x00\x00\x04\x00";

// The same, and the cycle ends.
const PAGE_WRITTEN: &[u8] =
    b"\x00\x00\x01\x01\x01\x00\x01\x01\x01\x00\x01\x01\x01\x00\x01\x01\x01\x00\x01\x01\x01\x00\x02\x01\x01\x01\x01\x00\x01\x01\x01\x00\x02\x00\x01\x01\x01\x00\x00\x01\x00\x00\x01\x01\x01\x00\x01\x01\x01\x00\x01\x01\x01\x00\x01\x01\x01\x00\x01\x01\x01\x00\x01\x01\x01\x00\x02\x01\x01\x01\x01\x00\x02\x00\x01\x01\x01\x00\x01\x01\x01\x00\x01\x01\x01\x00\x01\x01\x01\x00\x01\x01\x01\x00\x01\x01\x01\x00\x01\x01\x01\x00\x01\x01\x01\x00\x01\x01\x01\x00\x01\x01\x01\x00\x01\x01\x01\x00\x01\x01\x01\x00\x01\x01\x01\x00\x01\x01\x01\x00\x02\x01\x01\x01\x01\x00\x02\x00\x01\x01\x01\x00\x02\x01\x01\x01\x01\x00\x01\x01\x01\x00\x02\x00\x01\x01\x01\x00\x01\x01\x01\x00\x01\x01\x01\x00\x01\x01\x01\x00\x01\x01\x01\x00\x01\x01\x01\x00\x01\x01\x01\x00\x01\x01\x01\x00\x02\x01\x01\x01\x01\x00\x02\x00\x01\x01\x01\x00\x02\x01\x01\x01\x01\x00\x01\x01\x01\x00\x02\x00\x01\x01\x01\x00\x02\x01\x01\x01\x01\x00\x02\x00\x01\x01\x01\x00\x00\x01\x05\x00";

pub static TABLE: [Row; 144] = [
    // Making: the backing's length. Equal is long enough, more is fine.
    Row("len-0", Over(Kind::Bench, 0, 0, 0), NONE, EMPTY),
    Row("len-1", Over(Kind::Bench, 1, 0, 0), NONE, EMPTY),
    Row("len-4368", Over(Kind::Bench, 4368, 0, 0), NONE, EMPTY),
    Row("len-4369", Over(Kind::Bench, 4369, 0, 0), NONE, EMPTY),
    Row("len-4370", GOOD, NONE, EMPTY),
    Row("len-4371", Over(Kind::Bench, 4371, 0, 0), NONE, EMPTY),
    // Making: the status cell. Bits 7, 3 and 2 are lawful, no other is.
    Row("status-10", Over(Kind::Bench, 4370, 0x10, 0), NONE, EMPTY),
    Row("status-8d", Over(Kind::Bench, 4370, 0x8D, 0), NONE, EMPTY),
    Row("status-8c", Over(Kind::Bench, 4370, 0x8C, 0), NONE, EMPTY),
    Row("status-80", Over(Kind::Bench, 4370, 0x80, 0), NONE, EMPTY),
    Row("status-08", Over(Kind::Bench, 4370, 8, 0), NONE, EMPTY),
    Row("status-04", Over(Kind::Bench, 4370, 4, 0), NONE, EMPTY),
    Row("status-01", Over(Kind::Bench, 4370, 1, 0), NONE, EMPTY),
    Row("status-02", Over(Kind::Bench, 4370, 2, 0), NONE, EMPTY),
    Row("status-20", Over(Kind::Bench, 4370, 0x20, 0), NONE, EMPTY),
    Row("status-40", Over(Kind::Bench, 4370, 0x40, 0), NONE, EMPTY),
    Row("status-ff", Over(Kind::Bench, 4370, 0xFF, 0), NONE, EMPTY),
    // Making: the lock cell. 0 and 1 are lawful.
    Row("lock-1", Over(Kind::Bench, 4370, 0, 1), NONE, EMPTY),
    Row("lock-2", Over(Kind::Bench, 4370, 0, 2), NONE, EMPTY),
    Row("lock-80", Over(Kind::Bench, 4370, 0, 0x80), NONE, EMPTY),
    Row("lock-ff", Over(Kind::Bench, 4371, 0, 0xFF), NONE, EMPTY),
    Row(
        "lock-1-status-8c",
        Over(Kind::Bench, 4370, 0x8C, 1),
        NONE,
        EMPTY,
    ),
    // Making: two defects at once. 1 before 2, 2 before 3.
    Row(
        "short-and-status",
        Over(Kind::Bench, 4369, 0x10, 0),
        NONE,
        EMPTY,
    ),
    Row(
        "status-and-lock",
        Over(Kind::Bench, 4370, 0x10, 2),
        NONE,
        EMPTY,
    ),
    Row(
        "status-8d-lock-1",
        Over(Kind::Bench, 4370, 0x8D, 1),
        NONE,
        EMPTY,
    ),
    Row(
        "status-8c-lock-2",
        Over(Kind::Bench, 4370, 0x8C, 2),
        NONE,
        EMPTY,
    ),
    // Making comes before the rows of the call itself: an event, ...
    Row(
        "unfit-1-event",
        Over(Kind::Bench, 4369, 0, 0),
        NONE,
        Ask::Event(0, 0),
    ),
    Row(
        "unfit-2-event",
        Over(Kind::Bench, 4370, 0x8D, 0),
        NONE,
        Ask::Event(0, 0),
    ),
    Row(
        "unfit-3-event",
        Over(Kind::Bench, 4370, 0, 2),
        NONE,
        Ask::Event(0, 0),
    ),
    Row(
        "unfit-1-event-bad",
        Over(Kind::Bench, 0, 0, 0),
        NONE,
        Ask::Event(7, 9),
    ),
    Row(
        "unfit-2-event-bad",
        Over(Kind::Bench, 4370, 0x10, 0),
        NONE,
        Ask::Event(0, 2),
    ),
    Row(
        "unfit-3-event-bad",
        Over(Kind::Bench, 4370, 0, 2),
        NONE,
        Ask::Event(5, 0),
    ),
    // ... a capture of odd length, one with too little room, one with a bad record, ...
    Row(
        "unfit-1-odd",
        Over(Kind::Bench, 4369, 0, 0),
        NONE,
        Ask::Capture(&[0, 0, 7], 9),
    ),
    Row(
        "unfit-2-odd",
        Over(Kind::Bench, 4370, 0x10, 0),
        NONE,
        Ask::Capture(&[0, 0, 7], 9),
    ),
    Row(
        "unfit-3-odd",
        Over(Kind::Bench, 4370, 0, 2),
        NONE,
        Ask::Capture(&[7], 0),
    ),
    Row(
        "unfit-1-room",
        Over(Kind::Bench, 0, 0, 0),
        NONE,
        Ask::Capture(&[0, 0, 0, 1], 1),
    ),
    Row(
        "unfit-2-room",
        Over(Kind::Bench, 4370, 0x8D, 0),
        NONE,
        Ask::Capture(&[0, 0, 0, 1], 1),
    ),
    Row(
        "unfit-3-room",
        Over(Kind::Bench, 4370, 0x8C, 2),
        NONE,
        Ask::Capture(&[0, 0, 0, 1], 0),
    ),
    Row(
        "unfit-1-record",
        Over(Kind::Bench, 4369, 0, 0),
        NONE,
        Ask::Capture(&[0, 0, 7, 9], 2),
    ),
    Row(
        "unfit-2-record",
        Over(Kind::Bench, 4370, 0x10, 2),
        NONE,
        Ask::Capture(&[0, 0, 7, 9], 2),
    ),
    Row(
        "unfit-3-record",
        Over(Kind::Bench, 4371, 0, 2),
        NONE,
        Ask::Capture(&[0, 0, 7, 9], 2),
    ),
    // ... a page copy that is good, and one that is not.
    Row(
        "unfit-1-copy",
        Over(Kind::Bench, 4369, 0, 0),
        NONE,
        Ask::Copy(0, 256, 0),
    ),
    Row(
        "unfit-2-copy",
        Over(Kind::Bench, 4370, 0x10, 0),
        NONE,
        Ask::Copy(0, 256, 0),
    ),
    Row(
        "unfit-3-copy",
        Over(Kind::Bench, 4370, 0, 2),
        NONE,
        Ask::Copy(0, 256, 0),
    ),
    Row(
        "unfit-1-copy-bad",
        Over(Kind::Bench, 0, 0, 0),
        NONE,
        Ask::Copy(16, 0, 1),
    ),
    Row(
        "unfit-2-copy-bad",
        Over(Kind::Bench, 4370, 0x8D, 0),
        NONE,
        Ask::Copy(16, 256, 0),
    ),
    Row(
        "unfit-3-copy-bad",
        Over(Kind::Bench, 4370, 0, 2),
        NONE,
        Ask::Copy(0, 255, 0),
    ),
    // Captures: the answer room, against all records, also those after a refused one.
    Row("room-none", GOOD, NONE, Ask::Capture(&[0, 0, 0, 1], 0)),
    Row("room-one-short", GOOD, NONE, Ask::Capture(&[0, 0, 0, 1], 1)),
    Row("room-exact", GOOD, NONE, Ask::Capture(&[0, 0, 0, 1], 2)),
    Row("room-longer", GOOD, NONE, Ask::Capture(&[0, 0, 0, 1], 3)),
    Row(
        "room-much-longer",
        GOOD,
        NONE,
        Ask::Capture(&[0, 0, 0, 1], 1000),
    ),
    Row(
        "room-short-bad-first",
        GOOD,
        NONE,
        Ask::Capture(&[7, 9, 0, 0], 1),
    ),
    Row(
        "room-short-bad-middle",
        GOOD,
        NONE,
        Ask::Capture(&[0, 0, 7, 9, 0, 1], 2),
    ),
    Row(
        "room-exact-bad-middle",
        GOOD,
        NONE,
        Ask::Capture(&[0, 0, 7, 9, 0, 1], 3),
    ),
    Row("empty-no-room", GOOD, NONE, EMPTY),
    Row("empty-room", GOOD, NONE, Ask::Capture(&[], 5)),
    Row("empty-in-cycle", GOOD, WRITING_STATUS, EMPTY),
    Row("odd-one-byte", GOOD, NONE, Ask::Capture(&[0], 1)),
    Row("odd-no-room", GOOD, NONE, Ask::Capture(&[0, 0, 7], 0)),
    Row("odd-room", GOOD, NONE, Ask::Capture(&[0, 0, 7], 9)),
    Row("odd-bad-record", GOOD, NONE, Ask::Capture(&[7, 9, 7], 9)),
    // Events: in a capture the record is the refused one's number, alone it is 0; the
    // layer is 2 in both.
    Row("event-4", GOOD, NONE, Ask::Event(7, 9)),
    Row("event-4-255", GOOD, NONE, Ask::Event(255, 0)),
    Row("event-5-s", GOOD, NONE, Ask::Event(0, 2)),
    Row("event-5-hold", GOOD, NONE, Ask::Event(4, 255)),
    Row("event-5-end", GOOD, NONE, Ask::Event(5, 1)),
    Row("event-5-power", GOOD, SELECTED, Ask::Event(6, 1)),
    Row("event-6-s", GOOD, NONE, Ask::Event(0, 1)),
    Row("event-6-c", GOOD, NONE, Ask::Event(1, 0)),
    Row("event-6-d", GOOD, NONE, Ask::Event(2, 0)),
    Row("event-6-w", GOOD, NONE, Ask::Event(3, 1)),
    Row("event-6-hold", GOOD, NONE, Ask::Event(4, 1)),
    Row("event-7", GOOD, NONE, Ask::Event(5, 0)),
    Row("event-7-ended", GOOD, STATUS_WRITTEN, Ask::Event(5, 0)),
    Row("event-8", GOOD, SELECTED, Ask::Event(6, 0)),
    Row("event-8-and-9", GOOD, POLLING, Ask::Event(6, 0)),
    Row("event-9", GOOD, WRITING_STATUS, Ask::Event(6, 0)),
    Row("event-select", GOOD, NONE, Ask::Event(0, 0)),
    Row("event-end", GOOD, WRITING_STATUS, Ask::Event(5, 0)),
    Row("event-end-held", GOOD, POLLING_HELD, Ask::Event(5, 0)),
    Row("event-power", GOOD, ENABLED, Ask::Event(6, 0)),
    Row("record-4", GOOD, NONE, Ask::Capture(&[0, 0, 1, 1, 7, 9], 3)),
    Row("record-5", GOOD, NONE, Ask::Capture(&[0, 0, 0, 2], 2)),
    Row("record-6", GOOD, NONE, Ask::Capture(&[0, 0, 1, 1, 1, 1], 3)),
    Row("record-6-first", GOOD, NONE, Ask::Capture(&[0, 1], 1)),
    Row("record-7", GOOD, NONE, Ask::Capture(&[6, 0, 5, 0], 2)),
    Row("record-8", GOOD, NONE, Ask::Capture(&[0, 0, 6, 0], 2)),
    Row(
        "record-9",
        GOOD,
        WRITING_STATUS,
        Ask::Capture(&[2, 1, 2, 0, 6, 0], 3),
    ),
    // Page copies: the page. 15 is the last one of the bench part.
    Row("page-0", GOOD, NONE, Ask::Copy(0, 256, 0)),
    Row("page-15", GOOD, NONE, Ask::Copy(15, 256, 0)),
    Row(
        "page-15-longer-image",
        Over(Kind::Bench, 4371, 0x8C, 1),
        NONE,
        Ask::Copy(15, 256, 0),
    ),
    Row("page-16", GOOD, NONE, Ask::Copy(16, 256, 0)),
    Row(
        "page-16-longer-image",
        Over(Kind::Bench, 9000, 0, 0),
        NONE,
        Ask::Copy(16, 256, 0),
    ),
    Row("page-17", GOOD, NONE, Ask::Copy(17, 256, 0)),
    Row("page-256", GOOD, NONE, Ask::Copy(256, 256, 0)),
    Row("page-16777216", GOOD, NONE, Ask::Copy(16777216, 256, 0)),
    Row("page-2-to-32", GOOD, NONE, Ask::Copy(4294967296, 256, 0)),
    Row(
        "page-2-to-56",
        GOOD,
        NONE,
        Ask::Copy(72057594037927936, 256, 0),
    ),
    Row(
        "page-2-to-64-less-1",
        GOOD,
        NONE,
        Ask::Copy(18446744073709551615, 256, 0),
    ),
    // Page copies: buffer and place.
    Row("buffer-0", GOOD, NONE, Ask::Copy(0, 0, 0)),
    Row("buffer-255", GOOD, NONE, Ask::Copy(0, 255, 0)),
    Row("buffer-255-at-1", GOOD, NONE, Ask::Copy(15, 255, 1)),
    Row("buffer-256-at-0", GOOD, NONE, Ask::Copy(15, 256, 0)),
    Row("buffer-256-at-1", GOOD, NONE, Ask::Copy(0, 256, 1)),
    Row("buffer-256-at-256", GOOD, NONE, Ask::Copy(0, 256, 256)),
    Row("buffer-257-at-0", GOOD, NONE, Ask::Copy(0, 257, 0)),
    Row("buffer-257-at-1", GOOD, NONE, Ask::Copy(0, 257, 1)),
    Row("buffer-257-at-2", GOOD, NONE, Ask::Copy(0, 257, 2)),
    Row("buffer-512-at-256", GOOD, NONE, Ask::Copy(7, 512, 256)),
    Row("buffer-512-at-257", GOOD, NONE, Ask::Copy(7, 512, 257)),
    Row("place-2-to-32", GOOD, NONE, Ask::Copy(0, 512, 4294967296)),
    Row(
        "place-2-to-64-less-256",
        GOOD,
        NONE,
        Ask::Copy(0, 512, 18446744073709551360),
    ),
    Row(
        "place-2-to-64-less-1",
        GOOD,
        NONE,
        Ask::Copy(0, 256, 18446744073709551615),
    ),
    Row("page-16-buffer-255", GOOD, NONE, Ask::Copy(16, 255, 0)),
    Row(
        "page-16-buffer-0",
        GOOD,
        NONE,
        Ask::Copy(16, 0, 18446744073709551615),
    ),
    // Page copies: a cycle running. Every page is refused, also one that the cycle
    // does not change; 12 and 13 come first. S, hold and stretch do not matter.
    Row("cycle-page-0", GOOD, WRITING_STATUS, Ask::Copy(0, 256, 0)),
    Row("cycle-page-5", GOOD, WRITING_PAGE, Ask::Copy(5, 256, 0)),
    Row("cycle-page-15", GOOD, WRITING_PAGE, Ask::Copy(15, 256, 0)),
    Row(
        "cycle-srwd",
        Over(Kind::Bench, 4370, 0x8C, 1),
        WRITING_STATUS,
        Ask::Copy(0, 256, 0),
    ),
    Row("cycle-page-16", GOOD, WRITING_STATUS, Ask::Copy(16, 256, 0)),
    Row(
        "cycle-buffer-255",
        GOOD,
        WRITING_STATUS,
        Ask::Copy(0, 255, 0),
    ),
    Row(
        "cycle-buffer-256-at-1",
        GOOD,
        WRITING_STATUS,
        Ask::Copy(0, 256, 1),
    ),
    Row(
        "cycle-page-16-buffer-0",
        GOOD,
        WRITING_STATUS,
        Ask::Copy(16, 0, 0),
    ),
    Row("cycle-selected", GOOD, POLLING, Ask::Copy(0, 256, 0)),
    Row("cycle-ended", GOOD, STATUS_WRITTEN, Ask::Copy(0, 256, 0)),
    Row("copy-selected", GOOD, SELECTED, Ask::Copy(0, 256, 0)),
    Row("copy-held", GOOD, HELD, Ask::Copy(0, 256, 0)),
    Row("copy-enabled", GOOD, ENABLED, Ask::Copy(0, 256, 0)),
    Row(
        "protected-no-cycle",
        Over(Kind::Bench, 4370, 0x0C, 0),
        WRITING_PAGE,
        Ask::Copy(5, 256, 0),
    ),
    // After wren+write+end the copy of page 5 has 5Ah at its place 80h and FFh at the
    // 255 others. In a buffer of 258 bytes that was AAh all over, copied to place 1, the
    // bytes 0 and 257 stay AAh, byte 129 is 5Ah, and all others are FFh.
    Row("copy-written", GOOD, PAGE_WRITTEN, Ask::Copy(5, 258, 1)),
    Row("copy-not-written", GOOD, PAGE_WRITTEN, Ask::Copy(4, 256, 0)),
    // The makers' parts: the same by their own numbers.
    Row(
        "cm01-one-short",
        Over(Kind::Cm01, 131345, 0, 0),
        NONE,
        EMPTY,
    ),
    Row("cm01-exact", Over(Kind::Cm01, 131346, 0, 0), NONE, EMPTY),
    Row(
        "cm01-status",
        Over(Kind::Cm01, 131346, 0x10, 2),
        NONE,
        EMPTY,
    ),
    Row("cm01-lock", Over(Kind::Cm01, 131346, 0x8C, 2), NONE, EMPTY),
    Row(
        "cm01-page-511",
        Over(Kind::Cm01, 131346, 0, 0),
        NONE,
        Ask::Copy(511, 256, 0),
    ),
    Row(
        "cm01-page-512",
        Over(Kind::Cm01, 131346, 0, 0),
        NONE,
        Ask::Copy(512, 256, 0),
    ),
    Row(
        "cm02-one-short",
        Over(Kind::Cm02, 262417, 0, 0),
        NONE,
        EMPTY,
    ),
    Row("cm02-exact", Over(Kind::Cm02, 262418, 0, 0), NONE, EMPTY),
    Row(
        "cm02-status",
        Over(Kind::Cm02, 262418, 0x8D, 2),
        NONE,
        EMPTY,
    ),
    Row("cm02-lock", Over(Kind::Cm02, 262418, 0, 2), NONE, EMPTY),
    Row(
        "cm02-page-1023",
        Over(Kind::Cm02, 262418, 0, 0),
        NONE,
        Ask::Copy(1023, 256, 0),
    ),
    Row(
        "cm02-page-1024",
        Over(Kind::Cm02, 262418, 0, 0),
        NONE,
        Ask::Copy(1024, 256, 0),
    ),
];
