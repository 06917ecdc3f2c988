//! Maps that are written, of a label and of a network.

ghost use Rattle.std.specs.Prelude.{◌≡◌, ◌<◌, ◌++◌, [], ℕ, List, length, slice_get, Some, IfOk, OnOk};
ghost use Rattle.std.specs.List.{flat_map};
ghost use Rattle.pls_configuration.specs.declared.row.NodeRow.{NodeRow};
ghost use Rattle.pls_numbers.specs.Numbers.{AreCoded, codes_of};
ghost use Rattle.pls_numbers.specs.Shape.{IsSpelled};
ghost use Rattle.pls_universal.specs.Map.{map_of, numbers_of_port, numbers_of_row, row_stated, up_stated};
ghost use Rattle.pls_universal.specs.inner.Writing.{numbers_of_ports};
ghost use Rattle.pls_universal.specs.Reading.{rows_shape};

use crate::bound::maps_are_short;
use crate::map::MapRow;
use pls_bits::{BitBuf, NumCode};
use pls_graph::{Network, Port};
use pls_numbers::append_numbers;
use pls_streams::NoMemory;
use std::alloc::Global;

// A port that a record states.
trait StatedPort {
    // The neighbour and the weight.
    ghost pair: { Self → ℕ × ℕ };

    fn pair(&self) -> (u64, u64)
        ensures { result ≡ pair self.now };
}

impl StatedPort for (u64, u64) {
    ghost pair = { λ port. port };

    fn pair(&self) -> (u64, u64) {
        *self
    }
}

impl StatedPort for Port {
    ghost use Rattle.pls_universal.specs.Map.{port_stated};

    ghost pair = { port_stated };

    fn pair(&self) -> (u64, u64) {
        (u64::from(self.nbr), u64::from(self.weight))
    }
}

/// The bits of the network's map. The one error is want of memory.
pub fn write_map<C: NumCode>(alloc: Global, net: &Network) -> Result<BitBuf, NoMemory>
    ensures { IfOk result (λ bits. IsSpelled rows_shape C.code bits (map_of net.now)) }
{
    maps_are_short::<C>(net);
    let mut bits = BitBuf::new(alloc);
    C::write(&mut bits, net.len() as u64)?;
    for i in 0..net.len() {
        write_row::<C>(&mut bits, net, i)?;
    }
    Ok(bits)
}

fn write_row<C: NumCode>(bits: &mut BitBuf, net: &Network, i: usize) -> Result<(), NoMemory>
    requires within { i < length net.now }
    requires coded { (row : NodeRow) → slice_get net.now i ≡ Some row
        → AreCoded [] (numbers_of_row (row_stated row)) }
    ensures { OnOk result ((row : NodeRow) → slice_get net.now i ≡ Some row
        → bits.new ≡ bits.old ++ codes_of C.code [] (numbers_of_row (row_stated row))) }
{
    let (id, state) = net.node(i);
    let ports = net.ports(i);
    let (up, mark) = (up_stated(state.up), u64::from(state.mark));
    let head = [u64::from(id), up, mark, state.num, ports.len() as u64];
    append_record::<C, Port>(bits, &head, ports)?;
    Ok(())
}

// 0 for no pointer, else the port plus one.
fn up_stated(up: Option<u32>) -> u64
    ensures { result ≡ up_stated up }
{
    match up {
        Some(port) => u64::from(port) + 1,
        None => 0,
    }
}

pub(crate) fn append_rows<C: NumCode>(bits: &mut BitBuf, rows: &[MapRow]) -> Result<(), NoMemory>
    requires { AreCoded [] (flat_map numbers_of_row rows.now) }
    ensures { OnOk result
        (bits.new ≡ bits.old ++ codes_of C.code [] (flat_map numbers_of_row rows.now)) }
{
    for row in rows {
        append_row::<C>(bits, row)?;
    }
    Ok(())
}

fn append_row<C: NumCode>(bits: &mut BitBuf, row: &MapRow) -> Result<(), NoMemory>
    requires { AreCoded [] (numbers_of_row row.now) }
    ensures { OnOk result (bits.new ≡ bits.old ++ codes_of C.code [] (numbers_of_row row.now)) }
{
    let ports = row.ports.as_slice();
    let head = [row.id, row.up, row.mark, row.num, ports.len() as u64];
    append_record::<C, (u64, u64)>(bits, &head, ports)?;
    Ok(())
}

// `head` has the numbers in front of the ports.
fn append_record<C: NumCode, P: StatedPort>(
    bits: &mut BitBuf,
    head: &[u64; 5],
    ports: &[P],
) -> Result<(), NoMemory>
    requires { AreCoded [] (head.now ++ numbers_of_ports P.pair ports.now) }
    ensures { OnOk result (bits.new
        ≡ bits.old ++ codes_of C.code [] (head.now ++ numbers_of_ports P.pair ports.now)) }
{
    append_numbers::<C>(bits, head)?;
    append_ports::<C, P>(bits, ports)?;
    Ok(())
}

fn append_ports<C: NumCode, P: StatedPort>(bits: &mut BitBuf, ports: &[P]) -> Result<(), NoMemory>
    requires { AreCoded [] (numbers_of_ports P.pair ports.now) }
    ensures { OnOk result
        (bits.new ≡ bits.old ++ codes_of C.code [] (numbers_of_ports P.pair ports.now)) }
{
    for port in ports {
        append_port::<C>(bits, port.pair())?;
    }
    Ok(())
}

fn append_port<C: NumCode>(bits: &mut BitBuf, port: (u64, u64)) -> Result<(), NoMemory>
    requires { AreCoded [] (numbers_of_port port) }
    ensures { OnOk result (bits.new ≡ bits.old ++ codes_of C.code [] (numbers_of_port port)) }
{
    C::write(bits, port.0)?;
    C::write(bits, port.1)?;
    Ok(())
}
