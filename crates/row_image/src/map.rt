//! What a table's map says of its columns.
ghost use Rattle.std.specs.Prelude.{◌≡◌, map, flat_map, IfOk};
ghost use Rattle.log_model.specs.Images.{bits_bytes};
ghost use Rattle.log_model.specs.Items.{is_nullable, kind_of, type_code, type_metadata};

use byte_fields::bytes_u16;
use std::alloc::Global;
use val_types::{Bytes, ColType, ColumnDef, List, NoMemory};

/// The number of a type.
fn code(kind: ColType) -> u8
    ensures { result ≡ type_code kind }
{
    match kind {
        ColType::Int => 3,
        ColType::BigInt => 8,
        ColType::Varchar(_) => 15,
    }
}

/// The numbers of the columns' types.
#[tactic(auto, using(crate::proofs::Mapping::code_step))]
pub fn codes_of(alloc: Global, columns: &List<ColumnDef>) -> Result<Bytes, NoMemory>
    ensures { IfOk result (λ codes. codes ≡ map type_code (map kind_of columns.now)) }
{
    let mut codes = Bytes::with_capacity(alloc, columns.len())?;
    for column in columns.as_slice() {
        codes.push(code(column.kind))?;
    }
    Ok(codes)
}

/// The greatest lengths of the columns that are texts, in two bytes each.
#[tactic(auto, using(crate::proofs::Mapping::metadata_step))]
pub fn metadata_of(alloc: Global, columns: &List<ColumnDef>) -> Result<Bytes, NoMemory>
    ensures { IfOk result (λ bytes. bytes ≡ flat_map type_metadata (map kind_of columns.now)) }
{
    let mut bytes = Bytes::new(alloc);
    for column in columns.as_slice() {
        if let ColType::Varchar(most) = column.kind {
            bytes.extend_from_slice(&bytes_u16(u64::from(most)))?;
        }
    }
    Ok(bytes)
}
