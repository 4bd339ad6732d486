// cascade_read and cascade_write.

ghost use Rattle.std.specs.Prelude.{length};
ghost use Rattle.circuit.specs.Outcome.{Yields};
ghost use Rattle.circuit.specs.File.{read_outcome, read_buffer, write_outcome, write_buffer};
ghost use Rattle.capi.specs.File.{read_answer, write_answer};

use circuit::header::Header;

#[repr(C)]
#[derive(Clone, Copy, Debug, PartialEq, Eq)]
pub struct CascadeReadAnswer {
    pub number: u64,
    pub place: u64,
    pub lines: u64,
    pub constants: u64,
    pub values: u64,
    pub junk: u64,
    pub gates: u64,
    pub taken: u64,
}

#[repr(C)]
#[derive(Clone, Copy, Debug, PartialEq, Eq)]
pub struct CascadeWriteAnswer {
    pub number: u64,
    pub place: u64,
    pub written: u64,
}

#[unsafe(no_mangle)]
pub extern "C" fn cascade_read(text: &[u8], out: &mut [u64]) -> CascadeReadAnswer
    ensures { Yields result out.new (read_answer (read_outcome text.now (length out.old))) (read_buffer text.now out.old) }
{
    match circuit::file::read(text, out) {
        Ok(counts) => CascadeReadAnswer {
            number: 0,
            place: 0,
            lines: counts.header.lines,
            constants: counts.header.constants,
            values: counts.header.values,
            junk: counts.header.junk,
            gates: counts.gates as u64,
            taken: counts.taken as u64,
        },
        Err(why) => CascadeReadAnswer {
            number: why.number(),
            place: why.place(),
            lines: 0,
            constants: 0,
            values: 0,
            junk: 0,
            gates: 0,
            taken: 0,
        },
    }
}

#[unsafe(no_mangle)]
pub extern "C" fn cascade_write(header: Header, words: &[u64], out: &mut [u8]) -> CascadeWriteAnswer
    ensures { Yields result out.new (write_answer (write_outcome header words.now (length out.old))) (write_buffer header words.now out.old) }
{
    match circuit::file::write(header, words, out) {
        Ok(written) => CascadeWriteAnswer {
            number: 0,
            place: 0,
            written: written as u64,
        },
        Err(why) => CascadeWriteAnswer {
            number: why.number(),
            place: why.place(),
            written: 0,
        },
    }
}
