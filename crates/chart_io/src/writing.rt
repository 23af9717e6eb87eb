ghost use Rattle.std.specs.Prelude.{◌≤◌, OnOk, OnErr};
ghost use Rattle.chart_io.specs.Outside.{Rose, Appended, AppendedPrefix};

use crate::{Failed, Sink};

/// Not all bytes were taken: a call on the sink has failed, and the sink has counted a fault.
#[derive(Clone, Copy, Debug, PartialEq, Eq)]
pub struct WriteFault;

/// Writes all of `bytes`, in as many pieces as the sink takes them. It takes no memory. Whatever it
/// answers, the first of the bytes were appended: all of them where it answers Ok.
pub fn write_all<K: Sink>(out: &mut K, bytes: &[u8]) -> Result<(), WriteFault>
    ensures counted { K.faults out.old ≤ K.faults out.new }
    ensures cause { OnErr result (Rose (K.faults out.old) (K.faults out.new)) }
    ensures ok { OnOk result (Appended (K.held out.old) (K.held out.new) bytes.now) }
    ensures prefix { AppendedPrefix (K.held out.old) (K.held out.new) bytes.now }
{
    let mut at = 0;
    while at < bytes.len() {
        match out.write(&bytes[at..]) {
            Ok(n) => at += n,
            Err(Failed) => return Err(WriteFault),
        }
    }
    Ok(())
}
