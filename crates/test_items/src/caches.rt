//! A cache with an item by its rows and one by its text, which is cut, and the transaction of what is left.
ghost use Rattle.std.specs.Prelude.{◌≡◌, ◌∷◌, [], IfOk};
ghost use Rattle.test_items.specs.Small.{rows_item, text_item};

use crate::rows::{EVENTS, changes, tables};
use crate::texts::item;
use binlog_cache::Cache;
use event_codec::Header;
use log_entries::{Carried, Item, Vars};
use std::alloc::Global;
use std::test::Fail;
use val_types::{Bytes, List, NoMemory};

/// QUERY `BEGIN` of thread 1, from 362.
static BEGIN: [u8; 40] = [
    0x02, 0xf1, 0x53, 0x65, 0x02, 0x01, 0x00, 0x00, 0x00, 0x28, 0x00, 0x00, 0x00, 0x92, 0x01, 0x00,
    0x00, 0x00, 0x00, 0x01, 0x00, 0x00, 0x00, 0x00, 0x00, 0x00, 0x00, 0x02, 0x00, 0x00, 0x00, 0x00,
    0x64, 0x62, 0x00, 0x42, 0x45, 0x47, 0x49, 0x4e,
];

static XID: [u8; 27] = [
    // XID 1, from 571
    0x02, 0xf1, 0x53, 0x65, 0x10, 0x01, 0x00, 0x00, 0x00, 0x1b, 0x00, 0x00, 0x00, 0x56, 0x02, 0x00,
    0x00, 0x00, 0x00, 0x01, 0x00, 0x00, 0x00, 0x00, 0x00, 0x00, 0x00,
];

fn by_rows(alloc: Global) -> Result<Item, NoMemory>
    ensures { IfOk result (λ i. i ≡ rows_item) }
{
    let defs = tables(alloc)?;
    let changes = changes(alloc)?;
    let carried = Carried {
        stamp: 1_700_000_002,
        connection: 1,
        inc: 1,
        off: 1,
        last_id: None,
        first: None,
        seeds: None,
        vars: Vars::new(alloc),
    };
    Ok(Item {
        text: Bytes::new(alloc),
        carried,
        rows: true,
        defs,
        changes,
    })
}

fn cache(alloc: Global) -> Result<Cache, NoMemory>
    ensures { IfOk result (λ c. c ≡ rows_item ∷ text_item ∷ []) }
{
    let mut cache = Cache::new(alloc);
    cache.add(by_rows(alloc)?)?;
    cache.add(item(alloc)?)?;
    Ok(cache)
}

/// The transaction of the rows at 362.
fn encoded(alloc: Global, cache: &Cache) -> Result<Bytes, NoMemory>
    requires { cache.now ≡ rows_item ∷ [] }
{
    let header = Header {
        stamp: 1_700_000_002,
        server_id: 1,
        pos: 362,
    };
    cache.encode(alloc, 1, &header)
}

#[test]
fn a_cut_leaves_the_items_before_it(rt: HostRuntime) -> Result<(), Fail> {
    let mut cache = cache(rt.alloc())?;
    assert_eq!(rt; cache.bytes(), 408);
    assert_eq!(rt; cache.mark(), 2);
    cache.cut(1);
    assert_eq!(rt; cache.bytes(), 169);
    let log = encoded(rt.alloc(), &cache)?;
    let mut expected = Bytes::from_slice(rt.alloc(), &BEGIN)?;
    expected.extend_from_slice(&EVENTS)?;
    expected.extend_from_slice(&XID)?;
    assert_eq!(rt; log.as_slice(), expected.as_slice());
    Ok(())
}
