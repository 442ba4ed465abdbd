//! What is known of which images can step, from one step to the next.

ghost use Rattle.std.specs.Prelude.{◌≡◌, ◌<◌, ◌≤◌, ◌+◌, ◌-◌, ◌/◌, ◌^◌, ℕ, List, length, map, replicate, IfOk, MatchOption, true, false, slice_index, None, ◌||◌};
ghost use Rattle.std.specs.List.{filter};
ghost use Rattle.core_runs.specs.Beginnings.{numbers_to};
ghost use Rattle.caf_base.specs.declared.place.Place.{Place};
ghost use Rattle.run_outlook.specs.ImageSets.{has, IsLeastFrom};
ghost use Rattle.run_outlook.specs.Outlooks.{IsFileOf, IsFiled, IsForgotten, IsWell, filed_at};

use crate::image_set::ImageSet;
use crate::next_asks::NextAsks;
use caf_base::place::{ImageNo, Place};
use caf_base::refusal::NoMemory;
use std::alloc::Global;

/// Which images can step, as far as it is known. Of the stale ones it isn't; each other one is filed at the object of
/// its next ask, since a step there may change it.
/// What an image asks next only its own step changes, so its next ask is kept until then.
#[derive(Drop)]
pub struct Outlook {
    /// How many images the run has.
    pub images: u32,
    /// Those that can step, as far as it is known: of a stale one this says nothing.
    pub can: ImageSet,
    /// How many images are in `can`.
    pub count: u32,
    /// Those of which it isn't known whether they can step.
    pub stale: ImageSet,
    /// Those that are filed at the board, and at each memory by its owner's number.
    pub filed: Vec<ImageSet>,
    /// The next asks that are known.
    pub asks: NextAsks,
}

// The set of all images up to this number.
fn all_images(alloc: Global, images: u32) -> Result<ImageSet, NoMemory>
    requires { images < 2 ^ 31 }
    ensures room { IfOk result (λ s. length s.words.items ≡ images / 64 + 1) }
    ensures all { IfOk result (λ s. (i : ℕ) → 0 < i → i ≤ images → has s.words.items i ≡ true) }
    ensures no_others { IfOk result (λ s. (i : ℕ) → has s.words.items i ≡ true → (0 < i) × (i ≤ images)) }
{
    let mut all = ImageSet::new(alloc, images)?;
    for image in 1..images + 1 {
        all.insert(image);
    }
    Ok(all)
}

// So many sets without an image.
fn empty_sets(alloc: Global, count: usize, images: u32) -> Result<Vec<ImageSet>, NoMemory>
    ensures count { IfOk result (λ v. length v.items ≡ count) }
    ensures room { IfOk result (λ v. (k : ℕ) → k < count → length (filed_at v.items k) ≡ images / 64 + 1) }
    ensures none { IfOk result (λ v. (k i : ℕ) → has (filed_at v.items k) i ≡ false) }
{
    let mut sets = Vec::new(alloc);
    for _ in 0..count {
        sets.push(ImageSet::new(alloc, images)?)?;
    }
    Ok(sets)
}

impl Outlook {
    /// Nothing is known of any image yet.
    pub fn new(alloc: Global, images: u32, memories: usize) -> Result<Outlook, NoMemory>
        requires few { images < 2 ^ 31 }
        requires objects { memories < 2 ^ 64 - 1 }
        ensures well { IfOk result IsWell }
        ensures images { IfOk result (λ o. o.images ≡ images) }
        ensures files { IfOk result (λ o. length o.filed.items ≡ memories + 1) }
        ensures stale { IfOk result (λ o. (i : ℕ) → 0 < i → i ≤ images → has o.stale.words.items i ≡ true) }
        ensures none { IfOk result (λ o. (i : ℕ) → has o.can.words.items i ≡ false) }
        ensures asks { IfOk result (λ o. o.asks.kept.items ≡ replicate images None) }
    {
        Ok(Outlook {
            images,
            can: ImageSet::new(alloc, images)?,
            count: 0,
            stale: all_images(alloc, images)?,
            filed: empty_sets(alloc, memories + 1, images)?,
            asks: NextAsks::new(alloc, images)?,
        })
    }

    // Where the files of the object at a place are; none where there is no such object.
    fn file_of(&self, place: Place) -> Option<usize>
        ensures { MatchOption result ((k : ℕ) → IsFileOf (length self.now.filed.items) place k → ⊥) (λ k. IsFileOf (length self.now.filed.items) place k × (k < length self.now.filed.items)) }
    {
        let file = match place {
            Place::Own => return None,
            Place::Board => 0,
            Place::Memory(owner) => owner.0 as usize,
        };
        if file < self.filed.len() {
            Some(file)
        } else {
            None
        }
    }

    /// It isn't known any more whether this image can step; it is taken out of the file of a place. What is known of
    /// others stays.
    pub fn forget_image(&mut self, image: ImageNo, place: Place)
        requires well { IsWell self.old }
        requires image { (0 < image.0) × (image.0 ≤ self.old.images) }
        ensures well { IsWell self.new }
        ensures images { self.new.images ≡ self.old.images }
        ensures can { self.new.can ≡ self.old.can }
        ensures asks { self.new.asks ≡ self.old.asks }
        ensures files { length self.new.filed.items ≡ length self.old.filed.items }
        ensures stale { has self.new.stale.words.items image.0 ≡ true }
        ensures kept { (j : ℕ) → has self.old.stale.words.items j ≡ true → has self.new.stale.words.items j ≡ true }
        ensures filed { (j : ℕ) → (j ≡ image.0 → ⊥) → (q : Place) → IsFiled self.old.filed.items q j → IsFiled self.new.filed.items q j }
    {
        self.stale.insert(image.0);
        if let Some(file) = self.file_of(place) {
            self.filed[file].remove(image.0);
        }
    }

    /// It isn't known any more whether those images can step that are filed at a place; that is all it forgets.
    pub fn forget_place(&mut self, place: Place)
        requires { IsWell self.old }
        ensures well { IsWell self.new }
        ensures images { self.new.images ≡ self.old.images }
        ensures can { self.new.can ≡ self.old.can }
        ensures asks { self.new.asks ≡ self.old.asks }
        ensures filed { self.new.filed ≡ self.old.filed }
        ensures kept { (j : ℕ) → has self.old.stale.words.items j ≡ true → has self.new.stale.words.items j ≡ true }
        ensures forgotten { IsForgotten self.new place }
    {
        if let Some(file) = self.file_of(place) {
            self.stale.insert_all(&self.filed[file]);
        }
    }

    // Notes whether an image can step.
    fn note(&mut self, image: u32, can: bool)
        requires well { IsWell self.old }
        requires image { (0 < image) × (image ≤ self.old.images) }
        ensures well { IsWell self.new }
        ensures images { self.new.images ≡ self.old.images }
        ensures here { has self.new.can.words.items image ≡ can }
        ensures others { (j : ℕ) → (j ≡ image → ⊥) → has self.new.can.words.items j ≡ has self.old.can.words.items j }
        ensures stale { self.new.stale ≡ self.old.stale }
        ensures filed { self.new.filed ≡ self.old.filed }
        ensures asks { self.new.asks ≡ self.old.asks }
    {
        let could = self.can.has(image);
        if can && !could {
            self.can.insert(image);
            self.count += 1;
        } else if could && !can {
            self.can.remove(image);
            self.count -= 1;
        }
    }

    // Files an image at the object of its next ask.
    fn file(&mut self, image: u32, place: Place)
        requires well { IsWell self.old }
        requires image { (0 < image) × (image ≤ self.old.images) }
        ensures well { IsWell self.new }
        ensures images { self.new.images ≡ self.old.images }
        ensures can { self.new.can ≡ self.old.can }
        ensures asks { self.new.asks ≡ self.old.asks }
        ensures stale { self.new.stale ≡ self.old.stale }
        ensures files { length self.new.filed.items ≡ length self.old.filed.items }
        ensures here { IsFiled self.new.filed.items place image }
        ensures filed { (j : ℕ) (q : Place) → IsFiled self.old.filed.items q j → IsFiled self.new.filed.items q j }
    {
        if let Some(file) = self.file_of(place) {
            self.filed[file].insert(image);
        }
    }

    /// It is known now whether an image can step, and where its next ask is.
    pub fn learn(&mut self, image: ImageNo, place: Place, can: bool)
        requires well { IsWell self.old }
        requires image { (0 < image.0) × (image.0 ≤ self.old.images) }
        ensures well { IsWell self.new }
        ensures images { self.new.images ≡ self.old.images }
        ensures here { has self.new.can.words.items image.0 ≡ can }
        ensures others { (j : ℕ) → (j ≡ image.0 → ⊥) → has self.new.can.words.items j ≡ has self.old.can.words.items j }
        ensures known { has self.new.stale.words.items image.0 ≡ false }
        ensures stale { (j : ℕ) → (j ≡ image.0 → ⊥) → has self.new.stale.words.items j ≡ has self.old.stale.words.items j }
        ensures files { length self.new.filed.items ≡ length self.old.filed.items }
        ensures filed_here { IsFiled self.new.filed.items place image.0 }
        ensures asks { self.new.asks ≡ self.old.asks }
        ensures filed { (j : ℕ) (q : Place) → IsFiled self.old.filed.items q j → IsFiled self.new.filed.items q j }
    {
        self.note(image.0, can);
        self.file(image.0, place);
        self.stale.remove(image.0);
    }

    /// Whether it isn't known of an image whether it can step.
    pub fn is_stale(&self, image: u32) -> bool
        requires well { IsWell self.now }
        requires image { image ≤ self.now.images }
        ensures { result ≡ has self.now.stale.words.items image }
    {
        self.stale.has(image)
    }

    /// Whether an image can step, where that is known.
    pub fn can(&self, image: u32) -> bool
        requires well { IsWell self.now }
        requires image { image ≤ self.now.images }
        ensures { result ≡ has self.now.can.words.items image }
    {
        self.can.has(image)
    }

    /// The first image from a number on that isn't known to be unable to step.
    pub fn next_open(&self, from: u32) -> Option<u32>
        requires well { IsWell self.now }
        ensures { IsLeastFrom (λ j. has self.now.can.words.items j || has self.now.stale.words.items j) from result }
    {
        // Most often that image itself is stale.
        if from <= self.images && self.is_stale(from) {
            return Some(from);
        }
        match (self.can.next(from), self.stale.next(from)) {
            (Some(can), Some(stale)) => Some(can.min(stale)),
            (Some(can), None) => Some(can),
            (None, stale) => stale,
        }
    }

    /// The first image from a number on of which it isn't known whether it can step.
    pub fn next_stale(&self, from: u32) -> Option<u32>
        requires well { IsWell self.now }
        ensures { IsLeastFrom (has self.now.stale.words.items) from result }
    {
        self.stale.next(from)
    }

    /// The candidate at a place, from 0.
    pub fn candidate_at(&self, place: u32) -> u32
        requires well { IsWell self.now }
        requires place { place < self.now.count }
        ensures it { result ≡ slice_index (filter (has self.now.can.words.items) (numbers_to self.now.images)) place }
        ensures can { has self.now.can.words.items result ≡ true }
    {
        let (first, mut left) = self.can.byte_of(place);
        let mut from = first.max(1);
        while let Some(image) = self.can.next(from) {
            if left == 0 {
                return image;
            }
            left -= 1;
            from = image + 1;
        }
        unreachable!()
    }
}
