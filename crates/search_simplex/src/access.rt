//! Access to lists by numbers that may be out of range.

use search_rows::Stuck;

/// No place.
pub const NONE: u32 = 4_294_967_295;

/// A copy of an item.
pub fn at<T: Copy>(list: &[T], place: u32) -> Result<T, Stuck> {
    match list.get(place as usize) {
        Some(found) => Ok(*found),
        None => Err(Stuck::Place),
    }
}

/// An item.
pub fn item<T>(list: &[T], place: u32) -> Result<&T, Stuck> {
    list.get(place as usize).ok_or(Stuck::Place)
}

/// An item to be changed.
pub fn lent<T>(list: &mut Vec<T>, place: u32) -> Result<&mut T, Stuck> {
    list.get_mut(place as usize).ok_or(Stuck::Place)
}

/// Puts an item in the place of another.
pub fn put<T: Copy>(list: &mut Vec<T>, place: u32, new: T) -> Result<(), Stuck> {
    let slot = list.get_mut(place as usize).ok_or(Stuck::Place)?;
    *slot = new;
    Ok(())
}

/// A count of items.
pub fn size(count: usize) -> Result<u32, Stuck> {
    u32::try_from(count).ok().ok_or(Stuck::Place)
}

/// A count of items, the greatest number where there are more.
pub fn count_of(count: usize) -> u32 {
    match u32::try_from(count) {
        Ok(found) => found,
        Err(_) => NONE,
    }
}
