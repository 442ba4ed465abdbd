//! Sets of images, a bit for each image.

ghost use Rattle.std.specs.Prelude.{◌≡◌, ◌<◌, ◌≤◌, ◌*◌, ◌^◌, ◌/◌, ◌%◌, ◌+◌, ◌-◌, ℕ, length, IfOk, true, false, ◌||◌};
ghost use Rattle.std.specs.List.{filter, range_with_len};
ghost use Rattle.run_outlook.specs.ImageSets.{has, IsLeastFrom};

use caf_base::refusal::NoMemory;
use std::alloc::Global;

/// A set of images by number.
#[derive(Drop)]
pub struct ImageSet {
    words: Vec<u64>,
}

impl ImageSet {
    /// The set without an image, with room for the images up to this number.
    pub fn new(alloc: Global, images: u32) -> Result<ImageSet, NoMemory>
        ensures room { IfOk result (λ s. length s.words.items ≡ images / 64 + 1) }
        ensures none { IfOk result (λ s. (i : ℕ) → has s.words.items i ≡ false) }
    {
        let words = vec![in alloc; 0; images as usize / 64 + 1]?;
        Ok(ImageSet { words })
    }

    /// Whether the image is in the set.
    pub fn has(&self, image: u32) -> bool
        requires { image < 64 * length self.now.words.items }
        ensures { result ≡ has self.now.words.items image }
    {
        (self.words[(image / 64) as usize] >> (image % 64)) & 1 == 1
    }

    /// Puts the image into the set.
    pub fn insert(&mut self, image: u32)
        requires { image < 64 * length self.old.words.items }
        ensures room { length self.new.words.items ≡ length self.old.words.items }
        ensures here { has self.new.words.items image ≡ true }
        ensures others { (j : ℕ) → (j ≡ image → ⊥) → has self.new.words.items j ≡ has self.old.words.items j }
    {
        self.words[(image / 64) as usize] |= 1 << (image % 64);
    }

    /// Takes the image out of the set.
    pub fn remove(&mut self, image: u32)
        requires { image < 64 * length self.old.words.items }
        ensures room { length self.new.words.items ≡ length self.old.words.items }
        ensures here { has self.new.words.items image ≡ false }
        ensures others { (j : ℕ) → (j ≡ image → ⊥) → has self.new.words.items j ≡ has self.old.words.items j }
    {
        self.words[(image / 64) as usize] &= !(1 << (image % 64));
    }

    /// Puts the images of another set into this one.
    pub fn insert_all(&mut self, more: &ImageSet)
        requires { length more.now.words.items ≡ length self.old.words.items }
        ensures room { length self.new.words.items ≡ length self.old.words.items }
        ensures both { (j : ℕ) → has self.new.words.items j ≡ (has self.old.words.items j || has more.now.words.items j) }
    {
        for k in 0..self.words.len() {
            self.words[k] |= more.words[k];
        }
    }

    // How many of the eight numbers from one on, whose bits are a byte of a word, are in the set.
    fn byte_count(&self, from: u32) -> u32
        requires within { from < 64 * length self.now.words.items }
        requires whole { from % 8 ≡ 0 }
        ensures { result ≡ length (filter (has self.now.words.items) (range_with_len from 8)) }
    {
        ((self.words[(from / 64) as usize] >> (from % 64)) % 256).count_ones()
    }

    /// The first number of the byte in which the number stands that is at a place of the set, and how many of the byte
    /// stand before that.
    pub fn byte_of(&self, place: u32) -> (u32, u32)
        requires { 64 * length self.now.words.items < 2 ^ 32 - 64 }
        ensures { result.1 + length (filter (has self.now.words.items) (range_with_len 0 result.0)) ≡ place }
    {
        let mut from = 0;
        let mut left = place;
        while ((from / 64) as usize) < self.words.len() {
            let count = self.byte_count(from);
            if left < count {
                break;
            }
            left -= count;
            from += 8;
        }
        (from, left)
    }

    /// The least image of the set from a number on.
    pub fn next(&self, from: u32) -> Option<u32>
        requires { 64 * length self.now.words.items < 2 ^ 32 }
        ensures { IsLeastFrom (has self.now.words.items) from result }
    {
        let first = (from / 64) as usize;
        if first >= self.words.len() {
            return None;
        }
        let word = self.words[first] >> (from % 64);
        if word != 0 {
            return Some(from + word.trailing_zeros());
        }
        for at in first + 1..self.words.len() {
            let word = self.words[at];
            if word != 0 {
                return Some(at as u32 * 64 + word.trailing_zeros());
            }
        }
        None
    }
}
