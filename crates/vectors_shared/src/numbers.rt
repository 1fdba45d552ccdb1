// A list of numbers, read from a place on. Past its end stand zeros.
ghost use Rattle.std.specs.Prelude.{◌≡◌, ◌≤◌, ◌++◌, take, ◌%◌, ◌^◌, ◌↔◌, ℕ, IsTrue, drop, get_or, length, min};

use field::cell::item_or;

// What a number of a list is read as: it gets the number's low bits, as many as it has.
pub trait FromLowBits: Copy {
    ghost low_bits: { ℕ → Self };

    fn from_low_bits(number: u64) -> Self
        ensures { result ≡ low_bits number };
}

impl FromLowBits for u8 {
    ghost low_bits = { λ number. number % 2 ^ 8 };

    fn from_low_bits(number: u64) -> u8 {
        (number % 0x100) as u8
    }
}

impl FromLowBits for u32 {
    ghost low_bits = { λ number. number % 2 ^ 32 };

    fn from_low_bits(number: u64) -> u32 {
        (number % 0x1_0000_0000) as u32
    }
}

impl FromLowBits for u64 {
    ghost low_bits = { λ number. number };

    fn from_low_bits(number: u64) -> u64 {
        number
    }
}

impl FromLowBits for usize {
    ghost low_bits = { λ number. number };

    fn from_low_bits(number: u64) -> usize {
        number as usize
    }
}

// The numbers of a list from a place on.
#[derive(Clone, Copy)]
pub struct Numbers<'a> {
    list: &'a [u64],
}

impl<'a> Numbers<'a> {
    // All numbers of a list.
    pub fn new(list: &'a [u64]) -> Self
        ensures { result.list.now ≡ list.entry.now }
    {
        Self { list }
    }

    // How many numbers there are.
    pub fn len(self) -> usize
        ensures { result ≡ length self.entry.list.now }
    {
        self.list.len()
    }

    // Whether only the zeros past the end are left.
    pub fn is_empty(self) -> bool
        ensures { IsTrue result ↔ length self.entry.list.now ≡ 0 }
    {
        self.list.is_empty()
    }

    // Number i.
    pub fn number(self, i: usize) -> u64
        ensures { result ≡ get_or self.entry.list.now i 0 }
    {
        item_or(self.list, i, 0)
    }

    // Number i, as what is asked for.
    pub fn item<T: FromLowBits>(self, i: usize) -> T
        ensures { result ≡ T.low_bits (get_or self.entry.list.now i 0) }
    {
        T::from_low_bits(self.number(i))
    }

    // Number i, or `most` where it is larger.
    pub fn at_most(self, i: usize, most: usize) -> usize
        ensures { result ≡ min most (get_or self.entry.list.now i 0) }
    {
        (self.number(i) as usize).min(most)
    }

    // The numbers behind the first n.
    pub fn behind(self, n: usize) -> Self
        ensures { result.list.now ≡ drop n self.entry.list.now }
    {
        let at = n.min(self.list.len());
        Self {
            list: &self.list[at..],
        }
    }

    // Fills `to` with the first numbers.
    pub fn fill<T: FromLowBits>(self, to: &mut [T]) {
        for (i, item) in to.iter_mut().enumerate() {
            *item = self.item(i);
        }
    }

    // The first numbers, as many as are asked for.
    pub fn array<T: FromLowBits, const N: usize>(self) -> [T; N] {
        std::array::from_fn(|i| self.item(i))
    }

    // Whether the list begins with these numbers.
    pub fn begins_with<T: Copy + Into<u64>>(self, numbers: &[T]) -> bool {
        numbers
            .iter()
            .enumerate()
            .all(|(i, number)| (*number).into() == self.number(i))
    }

    // Whether these numbers are as told: the first `listed` are those of the list, and the others are `stood`.
    pub fn is_told<T: Copy + Into<u64>>(self, listed: usize, stood: u64, numbers: &[T]) -> bool {
        let (told, others) = numbers.split_at(listed.min(numbers.len()));
        self.begins_with(told) && others.iter().all(|number| (*number).into() == stood)
    }

    // A part: how long it is, and its numbers as they stand in the list; and the numbers behind it.
    pub fn split_part(self) -> (&'a [u64], Self)
        ensures { result.0.now ++ result.1.list.now ≡ drop 1 self.entry.list.now }
    {
        let numbers = self.behind(1).list;
        let (part, list) = numbers.split_at(self.at_most(0, numbers.len()));
        (part, Self { list })
    }

    // A part, as `part` reads it, and the numbers behind it.
    pub fn split_copy<T: FromLowBits, const N: usize>(self) -> (Part<T, N>, Self)
        ensures { result.0.length ≤ N }
    {
        let (_, rest) = self.split_part();
        (self.part(), rest)
    }

    // A part: how long it is, and its numbers, of which as many are lent as it is long and there is room for.
    pub fn part<T: FromLowBits, const N: usize>(self) -> Part<T, N>
        ensures { result.length ≤ N }
    {
        Part {
            numbers: self.behind(1).array(),
            length: self.at_most(0, N),
        }
    }
}

// A part of a list: its length, and the numbers from its first on, as many as there is room for. The room is fixed, since no heap is used.
#[derive(Clone, Copy)]
pub struct Part<T, const N: usize> {
    pub numbers: [T; N],
    pub length: usize,
}

impl<T: Copy, const N: usize> Part<T, N> {
    // The numbers that are lent.
    pub fn lent(&self) -> &[T]
        ensures { result.now ≡ take self.now.length self.now.numbers }
    {
        &self.numbers[..self.length.min(N)]
    }

    // The same, to be written.
    pub fn lent_mut(&mut self) -> &mut [T] {
        &mut self.numbers[..self.length.min(N)]
    }
}
