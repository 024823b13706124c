ghost use Rattle.std.specs.Prelude.{◌≡◌, ◌≤◌, false, IfOk};
ghost use Rattle.st_model.specs.Processes.{processes};
ghost use Rattle.st_model.specs.Input.{input};
ghost use Rattle.st_frames.specs.inside.Rows.{RowTries, Takes, tried_changes, process_changes, is_done};

use crate::clocks::{primitive_millisecond_clock, primitive_second_clock};
use crate::devices::{be_device, primitive_input_semaphore, primitive_input_word, set_device};
use crate::low_space::primitive_low_space;
use crate::mouse::{primitive_mouse_point, primitive_move_mouse};
use crate::processes::{primitive_resume, primitive_signal, primitive_suspend, primitive_wait};
use crate::shapes::Setting;
use crate::timer::primitive_timer;
use st_frames::{Registers, Tried};
use st_memory::Objects;
use st_model::{Dead, Device, InputPrimitive, ProcessPrimitive};

/// Tries the primitive on processes. If it fails, nothing is changed.
#[tactic(auto, unfolding(st_model::specs::Processes::processes))]
pub fn try_process<O: Objects>(
    m: &mut O,
    r: &mut Registers,
    primitive: ProcessPrimitive,
) -> Result<Tried, Dead>
    requires room { process_changes ≤ O.room m.old }
    ensures does { RowTries O.Objects.own (processes O.names primitive)
        m.old r.old result m.new r.new }
    ensures takes { Takes O.Objects.own (tried_changes process_changes result) m.old m.new }
    ensures still { IfOk result (λ t. is_done t ≡ false → m.new ≡ m.old) }
{
    match primitive {
        ProcessPrimitive::Signal => primitive_signal(m, r),
        ProcessPrimitive::Wait => primitive_wait(m, r),
        ProcessPrimitive::Resume => primitive_resume(m, r),
        ProcessPrimitive::Suspend => primitive_suspend(m, r),
    }
}

/// Tries the primitive on devices or clocks.
#[tactic(auto, using(crate::proofs::Settings::devices), unfolding(st_model::specs::Input::input))]
pub fn try_input<O: Objects>(
    m: &mut O,
    r: &mut Registers,
    primitive: InputPrimitive,
) -> Result<Tried, Dead>
    requires room { 4 ≤ O.room m.old }
    ensures does { RowTries O.Objects.own (input O.names primitive) m.old r.old result m.new r.new }
    ensures takes { Takes O.Objects.own 4 m.old m.new }
{
    match primitive {
        InputPrimitive::MousePoint => primitive_mouse_point(m, r),
        InputPrimitive::MoveMouse => primitive_move_mouse(m, r),
        InputPrimitive::LinkCursor => set_device(m, r, Setting::CursorLink),
        InputPrimitive::InputSemaphore => primitive_input_semaphore(m, r),
        InputPrimitive::SampleInterval => set_device(m, r, Setting::SampleInterval),
        InputPrimitive::InputWord => primitive_input_word(m, r),
        InputPrimitive::SecondClock => primitive_second_clock(m, r),
        InputPrimitive::MillisecondClock => primitive_millisecond_clock(m, r),
        InputPrimitive::Timer => primitive_timer(m, r),
        InputPrimitive::BeCursor => be_device(m, r, Device::Cursor),
        InputPrimitive::BeDisplay => be_device(m, r, Device::Display),
        InputPrimitive::LowSpace => primitive_low_space(m, r),
    }
}
