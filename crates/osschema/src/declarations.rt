//! The objects that a configuration's text declares, in one list.

ghost use Rattle.std.specs.Prelude.{◌≡◌, ◌++◌, IfOk, OnOk};
ghost use Rattle.std.specs.List.{flat_map};
ghost use Rattle.osplan.specs.declared.plans.TheConstants.{COMMON};
ghost use Rattle.osschema.specs.Declarations.{byte_of, common_of, declarations, declared_as, declared_by, number_id, word_of};

use crate::shapes::{ConfigText, CoreText, Named};
use osbase::{CoreId, List, NOBODY, ObjectKind};
use osjson::{Text, Whole};
use osplan::{COMMON, KINDS};
use std::alloc::{AllocError, Global};

/// A declared object. An object that all cores have in common has `NOBODY` as its core.
#[derive(Drop)]
pub struct Declaration<'t> {
    pub name: Text<'t>,
    pub kind: ObjectKind,
    pub core: CoreId,
    /// Its index among the objects of its kind and core, counted from 0.
    pub index: usize,
    /// The greatest value and the least cycle of a counter. Other objects have neither.
    pub max: Whole,
    pub min: Whole,
}

/// The number as a byte; 0 if the number is below 0 (None) or above 255. A text without a fault has no such number.
pub fn byte_of(number: Whole) -> u8
    ensures { result ≡ byte_of number }
{
    match number {
        Some(number) => { if number <= 255 { number as u8 } else { 0 } }
        None => 0,
    }
}

/// The number as one of 32 bits; 0 if the number is below 0 (None) or has more bits. A text without a fault has no such
/// number.
pub fn word_of(number: Whole) -> u32
    ensures { result ≡ word_of number }
{
    match number {
        Some(number) => {
            if number <= 4_294_967_295 {
                number as u32
            } else {
                0
            }
        }
        None => 0,
    }
}

/// The core of this number; core 0 if the number is no byte.
pub fn number_id(number: Whole) -> CoreId
    ensures { result ≡ number_id number }
{
    CoreId {
        number: byte_of(number),
    }
}

// Adds the declarations of these objects, all of this kind. The index of each is its place in `objects`. `core` is the
// core of all of them, or `NOBODY` if all cores have them in common.
fn declare_each<'t>(
    declared: &mut List<Declaration<'t>>,
    core: CoreId,
    kind: ObjectKind,
    objects: &[Named<'t>],
) -> Result<(), AllocError>
    ensures { OnOk result (declared.new ≡ declared.old ++ declared_as core kind objects.now) }
{
    for (index, object) in objects.iter().enumerate() {
        declared.push(Declaration {
            name: Text::of(object.name.as_str()),
            kind,
            core,
            index,
            max: object.max,
            min: object.min,
        })?;
    }
    Ok(())
}

// Adds the declarations of all objects of a core, kind by kind, and of each kind in the order of the text.
fn declare<'t>(
    alloc: Global,
    declared: &mut List<Declaration<'t>>,
    core: &'t CoreText<'t>,
) -> Result<(), AllocError>
    ensures { OnOk result (declared.new ≡ declared.old ++ declared_by core.now) }
{
    for kind in KINDS.iter() {
        let objects = core.objects(alloc, *kind)?;
        declare_each(declared, number_id(core.id), *kind, objects.as_slice())?;
    }
    Ok(())
}

// Adds the declarations of the objects that all cores have in common, kind by kind.
fn declare_common<'t>(
    alloc: Global,
    declared: &mut List<Declaration<'t>>,
    text: &'t ConfigText<'t>,
) -> Result<(), AllocError>
    ensures { OnOk result (declared.new ≡ declared.old ++ flat_map (common_of text.now) COMMON) }
{
    for kind in COMMON.iter() {
        let objects = text.common(alloc, *kind)?;
        declare_each(declared, NOBODY, *kind, objects.as_slice())?;
    }
    Ok(())
}

/// The declarations of all objects of a text: those that all cores have in common, and then those of each core.
pub fn declarations_of<'t>(
    alloc: Global,
    text: &'t ConfigText<'t>,
) -> Result<List<Declaration<'t>>, AllocError>
    ensures { IfOk result (λ declared. declared ≡ declarations text.now) }
{
    let mut declared = List::new(alloc);
    declare_common(alloc, &mut declared, text)?;
    let cores = text.cores.as_slice();
    for core in cores {
        declare(alloc, &mut declared, core)?;
    }
    Ok(declared)
}
