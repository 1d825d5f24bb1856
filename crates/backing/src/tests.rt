// What a client learns of its own bytes, and the edges of images and pairs.
ghost use Rattle.backing.specs.Rows.{imaged, Writes};

use super::fault::Fault;
use super::image::Image;
use super::layer::Layer;
use super::pair::Pair;
use super::refusal::Refusal;
use super::row::Backing;
use std::test::Fail;

// When an image is gone, its caller's bytes hold what was put.
fn stored(bytes: &mut [u8], place: usize, byte: u8) -> Result<(), Fault>
    ensures { Writes (imaged bytes.old) (imaged bytes.new) place byte result }
{
    let mut image = Image::new(bytes);
    image.put(place, byte)
}

const PAST: Fault = Fault {
    refusal: Refusal::PastRow,
    record: 0,
    layer: Layer::Backing,
};

#[test]
fn empty_beside_nonempty(rt: HostRuntime) {
    let mut none: [u8; 0] = [];
    let mut two = [7u8, 8];
    let mut pair = Pair::new(Image::new(&mut none), Image::new(&mut two));
    assert_eq!(rt; pair.len(), 2);
    assert_eq!(rt; pair.get(1), Ok(8));
    assert_eq!(rt; pair.get(2), Err(PAST));
    assert_eq!(rt; pair.put(2, 1), Err(PAST));
    assert_eq!(rt; pair.put(0, 9), Ok(()));
    assert_eq!(rt; two, [9u8, 8]);
}

// Four images of one, none, two and one byte, in a pair of pairs: every joint.
#[test]
fn joints(rt: HostRuntime) {
    let mut a = [10u8];
    let mut b: [u8; 0] = [];
    let mut c = [20u8, 21];
    let mut d = [30u8];
    let left = Pair::new(Image::new(&mut a), Image::new(&mut b));
    let right = Pair::new(Image::new(&mut c), Image::new(&mut d));
    let mut all = Pair::new(left, right);
    assert_eq!(rt; all.len(), 4);
    for (place, byte) in [10u8, 20, 21, 30].iter().enumerate() {
        assert_eq!(rt; all.get(place), Ok(*byte));
        assert_eq!(rt; all.put(place, byte + 1), Ok(()));
    }
    assert_eq!(rt; all.get(4), Err(PAST));
    assert_eq!(rt; all.get(usize::MAX), Err(PAST));
    assert_eq!(rt; a, [11u8]);
    assert_eq!(rt; c, [21u8, 22]);
    assert_eq!(rt; d, [31u8]);
}

#[test]
fn past_the_cap(rt: HostRuntime) -> Result<(), Fail> {
    let mut bytes = vec![in rt.alloc(); 5u8; 1_048_578]?;
    let mut one = [6u8];
    let mut image = Image::new(bytes.as_mut_slice());
    assert_eq!(rt; image.len(), 1_048_576);
    assert_eq!(rt; image.put(1_048_575, 7), Ok(()));
    assert_eq!(rt; image.put(1_048_576, 7), Err(PAST));
    assert_eq!(rt; image.bytes().len(), 1_048_578);
    assert_eq!(rt; image.bytes().get(1_048_576).copied(), Some(5));
    let pair = Pair::new(Image::new(&mut one), image);
    assert_eq!(rt; pair.len(), 1_048_576);
    assert_eq!(rt; pair.get(1_048_575), Ok(5));
    assert_eq!(rt; pair.get(1_048_576), Err(PAST));
    Ok(())
}
