//! The SYNC IMAGES of all images of a run.

ghost use Rattle.std.specs.Prelude.{◌≡◌, ◌<◌, ◌≤◌, ◌-◌, ◌^◌, ℕ, Bool, ◌&&◌, not, length, slice_index, slice_set};
ghost use Rattle.std.specs.List.{list_any, range_with_len};
ghost use Rattle.object_rules.specs.Happenings.{numbers_of};
ghost use Rattle.failure_status.specs.Endings.{AreWithin, flag_of};
ghost use Rattle.image_sync.specs.PairStates.{row_of, names_in, is_missed_in, is_lost_in, status_in_pairs, tried_row, AreSquare, AreCounted, AreTriedTo, Begins};

use crate::row::{Row, has_partner, is_paired, names_other};
use caf_base::place::ImageNo;
use failure_status::endings::Endings;
use failure_status::status::status_of;

// Whether the last SYNC IMAGES of the image names the other one, which has stopped without its corresponding one.
fn is_missed(rows: &Vec<Row>, endings: &Endings, image: ImageNo, other: ImageNo) -> bool
    requires square { AreSquare (length rows.now.items) rows.now.items }
    requires image { (0 < image.0) × (image.0 ≤ length rows.now.items) }
    requires other { (0 < other.0) × (other.0 ≤ length rows.now.items) }
    requires stopped { length endings.now.stopped ≡ length rows.now.items }
    ensures { result ≡ is_missed_in rows.now.items endings.now image.0 other.0 }
{
    names_other(rows, image, other)
        && (endings.has_stopped(other) && !has_partner(rows, image, other))
}

// Whether it names the other one, which has failed.
fn is_lost(rows: &Vec<Row>, endings: &Endings, image: ImageNo, other: ImageNo) -> bool
    requires square { AreSquare (length rows.now.items) rows.now.items }
    requires image { (0 < image.0) × (image.0 ≤ length rows.now.items) }
    requires other { (0 < other.0) × (other.0 ≤ length rows.now.items) }
    requires failed { length endings.now.failed ≡ length rows.now.items }
    ensures { result ≡ is_lost_in rows.now.items endings.now image.0 other.0 }
{
    names_other(rows, image, other) && endings.has_failed(other)
}

// Whether one that it names has stopped without its corresponding one.
fn misses_one(rows: &Vec<Row>, endings: &Endings, image: ImageNo) -> bool
    requires square { AreSquare (length rows.now.items) rows.now.items }
    requires image { (0 < image.0) × (image.0 ≤ length rows.now.items) }
    requires few { length rows.now.items < 2 ^ 32 }
    requires stopped { length endings.now.stopped ≡ length rows.now.items }
    ensures { result ≡ list_any (λ j. is_missed_in rows.now.items endings.now image.0 j) (range_with_len 1 (length rows.now.items)) }
{
    let mut found = false;
    for k in 0..rows.len() {
        if is_missed(rows, endings, image, ImageNo(k as u32 + 1)) {
            found = true;
        }
    }
    found
}

// Whether one that it names has failed.
fn loses_one(rows: &Vec<Row>, endings: &Endings, image: ImageNo) -> bool
    requires square { AreSquare (length rows.now.items) rows.now.items }
    requires image { (0 < image.0) × (image.0 ≤ length rows.now.items) }
    requires few { length rows.now.items < 2 ^ 32 }
    requires failed { length endings.now.failed ≡ length rows.now.items }
    ensures { result ≡ list_any (λ j. is_lost_in rows.now.items endings.now image.0 j) (range_with_len 1 (length rows.now.items)) }
{
    let mut found = false;
    for k in 0..rows.len() {
        if is_lost(rows, endings, image, ImageNo(k as u32 + 1)) {
            found = true;
        }
    }
    found
}

// Closes the last SYNC IMAGES of the image where that is due, with the status of those that it names.
fn try_row(rows: &mut Vec<Row>, endings: &Endings, image: ImageNo)
    requires square { AreSquare (length rows.old.items) rows.old.items }
    requires image { (0 < image.0) × (image.0 ≤ length rows.old.items) }
    requires few { length rows.old.items < 2 ^ 32 }
    requires stopped { length endings.now.stopped ≡ length rows.old.items }
    requires failed { length endings.now.failed ≡ length rows.old.items }
    ensures { rows.new.items ≡ slice_set rows.old.items (image.0 - 1) (tried_row rows.old.items endings.now (length rows.old.items) image.0) }
{
    let at = (image.0 - 1) as usize;
    if rows[at].status().is_none() && is_paired(rows, endings, image) {
        let status = status_of(
            misses_one(rows, endings, image),
            loses_one(rows, endings, image),
        );
        rows[at].close(status);
    }
}

// Closes the last SYNC IMAGES of each image where that is due.
pub(crate) fn try_rows(rows: &mut Vec<Row>, endings: &Endings)
    requires square { AreSquare (length rows.old.items) rows.old.items }
    requires few { length rows.old.items < 2 ^ 32 }
    requires stopped { length endings.now.stopped ≡ length rows.old.items }
    requires failed { length endings.now.failed ≡ length rows.old.items }
    ensures as_many { length rows.new.items ≡ length rows.old.items }
    ensures tried { AreTriedTo (length rows.old.items) (length rows.old.items) rows.old.items endings.now rows.new.items }
{
    for k in 0..rows.len() {
        try_row(rows, endings, ImageNo(k as u32 + 1));
    }
}

// The image begins SYNC IMAGES with the set.
pub(crate) fn begin_row(rows: &mut Vec<Row>, image: ImageNo, set: &[ImageNo])
    requires square { AreSquare (length rows.old.items) rows.old.items }
    requires counted { AreCounted rows.old.items }
    requires image { (0 < image.0) × (image.0 ≤ length rows.old.items) }
    requires few { length rows.old.items < 2 ^ 32 }
    requires begun { (row_of rows.old.items image.0).begun < 2 ^ 62 }
    ensures { Begins image.0 (numbers_of set.now) rows.old.items rows.new.items }
{
    rows[(image.0 - 1) as usize].begin(set);
}
