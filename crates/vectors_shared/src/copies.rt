// Copies of numbers into a list.

// Stores a number in place `at`, if there is such a place.
pub fn put(number: u64, to: &mut [u64], at: usize) {
    if let Some(place) = to.get_mut(at) {
        *place = number;
    }
}

// Stores the numbers from place `at` on, as many as there are places.
pub fn put_all(from: &[u64], to: &mut [u64], at: usize) {
    if let Some(places) = to.get_mut(at..) {
        for (place, number) in places.iter_mut().zip(from) {
            *place = *number;
        }
    }
}
