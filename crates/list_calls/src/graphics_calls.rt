// The controller's calls: what is said, and its record as it is left.
use crate::after::{kept, told};
use crate::memory::Memory;
use graphics_controller::{
    chain, chain4, cpu_peek_u8, cpu_read_u8, cpu_write_u8, map_address, memory_map, odd_even,
    read_address, read_data, reset, serialize, shift_mode, show_pixels, write_address, write_data,
};
use list_lines::call::{CpuCall, GraphicsCall};
use list_lines::said::{Said, answer, part, stored};
use machine_types::{After, GraphicsController, Sequencer};

// On its record.
pub fn on_record(call: GraphicsCall, gc: GraphicsController) -> After<GraphicsController, Said> {
    match call {
        GraphicsCall::Reset => kept(reset(gc), Said::Done),
        GraphicsCall::Chain => kept(gc, answer(chain(gc))),
        GraphicsCall::Chain4 => kept(gc, answer(chain4(gc))),
        GraphicsCall::MemoryMap => kept(gc, answer(memory_map(gc))),
        GraphicsCall::OddEven => kept(gc, answer(odd_even(gc))),
        GraphicsCall::ShiftMode => kept(gc, answer(shift_mode(gc))),
        GraphicsCall::ReadAddress => kept(gc, answer(read_address(gc))),
        GraphicsCall::ReadData => kept(gc, answer(read_data(gc))),
        GraphicsCall::WriteAddress(byte) => told(write_address(gc, byte)),
        GraphicsCall::WriteData(byte) => told(write_data(gc, byte)),
        GraphicsCall::MapAddress(address, page) => {
            kept(gc, Said::Mapped(map_address(gc, address, page).into()))
        }
    }
}

// On memory.
pub fn on_memory(
    call: CpuCall,
    gc: GraphicsController,
    seq: Sequencer,
    memory: &mut Memory,
) -> After<GraphicsController, Said> {
    match call {
        CpuCall::CpuReadU8(address, page) => {
            told(cpu_read_u8(gc, seq, &memory.read(), address, page))
        }
        CpuCall::CpuPeekU8(address, page) => {
            kept(
                gc,
                answer(cpu_peek_u8(gc, seq, &memory.read(), address, page)),
            )
        }
        CpuCall::CpuWriteU8(address, page, byte) => {
            let after = cpu_write_u8(gc, seq, &mut memory.store(), address, page, byte);
            kept(after.next, stored(after.answer))
        }
        CpuCall::Serialize(at) => kept(gc, part(serialize(gc, seq, &memory.read(), at))),
        CpuCall::ShowPixels(at) => {
            kept(
                gc,
                Said::Shown(show_pixels(gc, seq, &memory.read(), at).into()),
            )
        }
    }
}
