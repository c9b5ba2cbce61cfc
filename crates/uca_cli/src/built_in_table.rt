ghost use Rattle.std.specs.Prelude.{◌≡◌, ◌∷◌, [], fold, IfOk, OnOk};
ghost use Rattle.uca_model.specs.Table.{with_entry};
ghost use Rattle.uca_cli.specs.BuiltIn.{built_in_table, plain, with_contractions, with_point, with_ranges};

use std::alloc::{AllocError, Global};
use uca_table::{Table, TableBuilder};
use uca_weights::Element;

/// The keys of one code point of the built-in table, each with its element, by key order.
#[rattlefmt::skip]
const ENTRIES: [(char, Element); 14] = [
    ('\u{1}', Element { starred: false, l1: 0, l2: 0, l3: 0 }),
    (' ', Element { starred: true, l1: 0x201, l2: 0x20, l3: 2 }),
    ('-', Element { starred: true, l1: 0x202, l2: 0x20, l3: 2 }),
    ('A', Element { starred: false, l1: 0x1000, l2: 0x20, l3: 8 }),
    ('a', Element { starred: false, l1: 0x1000, l2: 0x20, l3: 2 }),
    ('b', Element { starred: false, l1: 0x1001, l2: 0x20, l3: 2 }),
    ('c', Element { starred: false, l1: 0x1002, l2: 0x20, l3: 2 }),
    ('e', Element { starred: false, l1: 0x1004, l2: 0x20, l3: 2 }),
    ('h', Element { starred: false, l1: 0x1005, l2: 0x20, l3: 2 }),
    ('z', Element { starred: false, l1: 0x1006, l2: 0x20, l3: 2 }),
    ('\u{300}', Element { starred: false, l1: 0, l2: 0x21, l3: 2 }),
    ('\u{301}', Element { starred: false, l1: 0, l2: 0x22, l3: 2 }),
    ('\u{308}', Element { starred: false, l1: 0, l2: 0x23, l3: 2 }),
    ('\u{323}', Element { starred: false, l1: 0, l2: 0x24, l3: 2 }),
];

/// Adds code points to a table, each with its element.
fn insert_points(builder: &mut TableBuilder, points: &[(char, Element)]) -> Result<(), AllocError>
    ensures { OnOk result (builder.new ≡ fold with_point builder.old points.now) }
{
    for (c, element) in points {
        // No point of the table has another fault than an allocation failure.
        builder.insert(&[*c], &[*element]).map_err(|_| AllocError)?;
    }
    Ok(())
}

/// Adds a contraction with this primary weight.
fn insert_contraction(builder: &mut TableBuilder, key: &[char], l1: u16) -> Result<(), AllocError>
    ensures { OnOk result (builder.new ≡ with_entry builder.old key.now (plain l1 0x20 2 ∷ [])) }
{
    let element = Element {
        starred: false,
        l1,
        l2: 0x20,
        l3: 2,
    };
    // No contraction of the table has another fault than an allocation failure.
    builder.insert(key, &[element]).map_err(|_| AllocError)
}

/// Adds the contractions of the built-in table.
fn insert_contractions(builder: &mut TableBuilder) -> Result<(), AllocError>
    ensures { OnOk result (builder.new ≡ with_contractions builder.old) }
{
    insert_contraction(builder, &['c', 'h'], 0x1007)?;
    insert_contraction(builder, &['a', '\u{301}'], 0x1008)?;
    insert_contraction(builder, &['b', '\u{301}'], 0x1009)?;
    insert_contraction(builder, &['b', '\u{301}', '\u{308}'], 0x100A)
}

/// Adds the ranges of implicit weights of the built-in table: Tangut, and its supplement under the same base.
fn add_ranges(builder: &mut TableBuilder) -> Result<(), AllocError>
    ensures { OnOk result (builder.new ≡ with_ranges builder.old) }
{
    // No range of the table has another fault than an allocation failure.
    builder
        .add_implicit('\u{17000}', '\u{18AFF}', 0xFB00)
        .map_err(|_| AllocError)?;
    builder
        .add_implicit('\u{18D00}', '\u{18D8F}', 0xFB00)
        .map_err(|_| AllocError)
}

/// A small table for trials: ignorable and variable elements, some Latin letters and marks, contractions, and ranges of
/// implicit weights.
pub fn built_in(alloc: Global) -> Result<Table, AllocError>
    ensures { IfOk result (λ t. t ≡ built_in_table) }
{
    let mut builder = TableBuilder::new(alloc);
    insert_points(&mut builder, &ENTRIES)?;
    insert_contractions(&mut builder)?;
    add_ranges(&mut builder)?;
    builder.finish().map_err(|_| AllocError)
}
