//! The memories of a run.

ghost use Rattle.std.specs.Prelude.{◌≡◌, ◌<◌, ◌^◌, [], length, map, IfOk};
ghost use Rattle.image_core.specs.Parts.{EachAt};
ghost use Rattle.coarray_memory.specs.Memories.{declared_of, AreDeclared};
ghost use Rattle.full_parts.specs.FullStarts.{IsNewMemory};

use caf_base::place::ImageNo;
use caf_base::refusal::NoMemory;
use coarray_memory::coarray::Coarray;
use coarray_memory::memory::Memory;
use std::alloc::Global;

// The same declaration.
fn copy_of(coarray: &Coarray) -> Result<Coarray, NoMemory>
    ensures { IfOk result (λ c. declared_of c ≡ declared_of coarray.now) }
{
    Ok(Coarray {
        holding: coarray.holding,
        allocatable: coarray.allocatable,
        cells: coarray.cells,
        first: coarray.first.copy()?,
    })
}

// The same declarations.
fn copies(alloc: Global, coarrays: &[Coarray]) -> Result<Vec<Coarray>, NoMemory>
    ensures { IfOk result (λ v. map declared_of v.items ≡ map declared_of coarrays.now) }
{
    let mut copies = Vec::new(alloc);
    for coarray in coarrays {
        copies.push(copy_of(coarray)?)?;
    }
    Ok(copies)
}

// The memory of an image.
fn memory(alloc: Global, owner: ImageNo, coarrays: &[Coarray]) -> Result<Memory, NoMemory>
    requires { AreDeclared (map declared_of coarrays.now) }
    ensures made { IfOk result (λ m. m.made ≡ record { owner = owner; coarrays = map declared_of coarrays.now }) }
    ensures history { IfOk result (λ m. m.history ≡ []) }
{
    let own = copies(alloc, coarrays)?;
    Memory::new(alloc, owner, own)
}

/// The memories of the images from 1 to n.
pub(crate) fn memories(alloc: Global, coarrays: &[Coarray], n: u32) -> Result<Vec<Memory>, NoMemory>
    requires images { n < 2 ^ 31 }
    requires declared { AreDeclared (map declared_of coarrays.now) }
    ensures count { IfOk result (λ v. length v.items ≡ n) }
    ensures fresh { IfOk result (λ v. EachAt (IsNewMemory (map declared_of coarrays.now)) v.items) }
{
    let mut memories = Vec::new(alloc);
    for k in 0..n {
        memories.push(memory(alloc, ImageNo(k + 1), coarrays)?)?;
    }
    Ok(memories)
}
