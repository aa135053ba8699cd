//! Places in a pool of cells.
ghost use Rattle.kt_pool.specs.Contents.{Stands};

use kt_pool::{Place, Pool};
use std::cmp::Ordering;
use std::test::Fail;

/// A byte of a long place, how many bytes stand behind another in its chunk, and whether the place comes before "b".
fn told(pool: &Pool, place: Place) -> (u8, usize, bool)
    requires { Stands pool.now place.cell }
{
    if pool.len(place) < 16384 {
        return (0, 0, false);
    }
    // The byte 16,033 is the eighteenth of its chunk of 56.
    let left = pool.chunk(place, 16033).len();
    (
        pool.read(place, 16383),
        left,
        pool.compare(place, b"b").is_lt(),
    )
}

#[test]
fn a_place_of_many_cells_is_changed_and_given_back(rt: HostRuntime) -> Result<(), Fail> {
    let mut pool = Pool::new(rt.alloc(), 300)?;
    pool.reserve(300)?;
    let place = pool.place(&[7; 16384]);
    assert_eq!(rt; told(&pool, place), (7, 39, true));
    pool.set(place, 0, b"z");
    assert_eq!(rt; told(&pool, place), (7, 39, false));
    pool.give_back(place);
    assert_eq!(rt; pool.free(), 300);
    Ok(())
}

#[test]
fn two_pieces_where_bytes_stood(rt: HostRuntime) -> Result<(), Fail> {
    let mut pool = Pool::new(rt.alloc(), 2)?;
    pool.reserve(2)?;
    let first = pool.place(&[1; 60]);
    pool.give_back(first);
    pool.reserve(2)?;
    let place = pool.place_two(&[2; 20], &[3; 40]);
    let mut both = [2; 60];
    both[20..].copy_from_slice(&[3; 40]);
    assert_eq!(rt; pool.compare(place, &both), Ordering::Equal);
    assert_eq!(rt; pool.free(), 0);
    Ok(())
}
