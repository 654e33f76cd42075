//! Files, each once, sorted by their bytes.

ghost use Rattle.std.specs.Prelude.{◌≡◌, IfOk, OnOk};
ghost use Rattle.t1_classes.specs.{Partition.{put, distinct}, Views.{lent}};

use std::alloc::{AllocError, Global};
use std::cmp::Ordering;

/// Puts a file among sorted ones, unless it is one of them.
fn put<'a>(sorted: &mut Vec<&'a [u8]>, file: &'a [u8]) -> Result<(), AllocError>
    ensures { OnOk result (lent sorted.new.items ≡ put file.now (lent sorted.old.items)) }
{
    'files: for place in 0..sorted.len() {
        match file.cmp(sorted[place]) {
            Ordering::Less => {
                sorted.insert(place, file)?;
                return Ok(());
            }
            Ordering::Equal => return Ok(()),
            Ordering::Greater => {}
        }
    }
    sorted.push(file)?;
    Ok(())
}

/// The files, each once, sorted by their bytes.
pub(crate) fn distinct<'a>(alloc: Global, files: &[&'a [u8]]) -> Result<Vec<&'a [u8]>, AllocError>
    ensures { IfOk result (λ v. lent v.items ≡ distinct (lent files.now)) }
{
    let mut sorted = Vec::new(alloc);
    'files: for file in files {
        put(&mut sorted, file)?;
    }
    Ok(sorted)
}
