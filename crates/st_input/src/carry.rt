ghost use Rattle.std.specs.Prelude.{◌≡◌};
ghost use Rattle.st_model.specs.Deeds.{deed_done, world_done};
ghost use Rattle.st_frames.specs.Naming.{IsNaming, naming};

use crate::bytes::replace_bytes;
use crate::methods::{store_header, store_literal};
use crate::pixels::copy_pixels;
use crate::units::{store_byte, store_number, store_time, store_word};
use crate::world::change_world;
use st_frames::World;
use st_memory::Memory;
use st_model::Deed;

/// Does what a primitive left to be done on objects.
fn change_objects<M: Memory>(m: &mut M, deed: Deed)
    ensures objects { (M.view m.new).objects ≡ deed_done deed (M.view m.old).objects }
    ensures held { (M.view m.new).held ≡ (M.view m.old).held }
    ensures head { (M.view m.new).head ≡ (M.view m.old).head }
{
    match deed {
        Deed::StoreWord {
            object,
            place,
            word,
        } => store_word(m, object, place, word),
        Deed::StoreByte {
            object,
            place,
            byte,
        } => store_byte(m, object, place, byte),
        Deed::StoreNumber { object, number } => store_number(m, object, number),
        Deed::ReplaceBytes {
            target,
            source,
            to,
            from,
            count,
        } => replace_bytes(m, target, source, to, from, count),
        Deed::StoreHeader { method, header } => store_header(m, method, header),
        Deed::StoreLiteral {
            method,
            number,
            value,
        } => store_literal(m, method, number, value),
        Deed::StoreTime { object, time } => store_time(m, object, time),
        Deed::TakeWord { object, number } => store_number(m, object, u128::from(number)),
        Deed::CopyBits { bit_blt } => copy_pixels(m, bit_blt),
        Deed::Nothing
        | Deed::Hold { .. }
        | Deed::SetTimer { .. }
        | Deed::RingTimer { .. }
        | Deed::SetLowSpace { .. }
        | Deed::MoveMouse { .. } => {}
    }
}

/// Does what a primitive left to be done, on the memory and on the world. The memory goes on holding what the world names.
pub fn carry_out<M: Memory>(m: &mut M, w: &mut World, deed: Deed)
    requires named { IsNaming (M.view m.old).held w.old }
    ensures objects { (M.view m.new).objects ≡ deed_done deed (M.view m.old).objects }
    ensures world { w.new ≡ world_done deed (M.view m.old).objects w.old }
    ensures held { (M.view m.new).held ≡ naming (M.view m.old).held w.new }
    ensures head { (M.view m.new).head ≡ (M.view m.old).head }
{
    change_world(m, w, deed);
    change_objects(m, deed);
}
