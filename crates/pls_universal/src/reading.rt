//! Maps that are read. A count that a map states asks for no memory: room is made as records come.

ghost use Rattle.std.specs.Prelude.{◌≡◌, Some, None, IfOk, IfSome, IfNone};
ghost use Rattle.pls_numbers.specs.Taking.{many_off};
ghost use Rattle.pls_universal.specs.Reading.{port_off, row_off};

use crate::map::{MapRow, PortList};
use pls_bits::NumCode;
use pls_numbers::Numbers;
use pls_streams::NoMemory;
use std::alloc::Global;

// `None` where fewer than `count` records can be read.
pub(crate) fn read_rows<C: NumCode>(
    alloc: Global,
    numbers: &mut Numbers<'_, C>,
    count: u64,
) -> Result<Option<Vec<MapRow>>, NoMemory>
    ensures found { IfOk result (λ found. IfSome found (λ rows.
        many_off row_off count numbers.old.numbers ≡ Some (rows.items, numbers.new.numbers))) }
    ensures same { IfOk result (λ found. IfSome found
        (λ _. numbers.new.clean ≡ numbers.old.clean)) }
    ensures none { IfOk result (λ found. IfNone found
        (many_off row_off count numbers.old.numbers ≡ None)) }
{
    let mut rows = Vec::new(alloc);
    for _ in 0..count {
        let Some(row) = read_row(alloc, numbers)? else {
            return Ok(None);
        };
        rows.push(row)?;
    }
    Ok(Some(rows))
}

fn read_row<C: NumCode>(
    alloc: Global,
    numbers: &mut Numbers<'_, C>,
) -> Result<Option<MapRow>, NoMemory>
    ensures found { IfOk result (λ found. IfSome found
        (λ row. row_off numbers.old.numbers ≡ Some (row, numbers.new.numbers))) }
    ensures same { IfOk result (λ found. IfSome found
        (λ _. numbers.new.clean ≡ numbers.old.clean)) }
    ensures none { IfOk result (λ found. IfNone found (row_off numbers.old.numbers ≡ None)) }
{
    let Some(id) = numbers.next() else {
        return Ok(None);
    };
    let Some(up) = numbers.next() else {
        return Ok(None);
    };
    let Some(mark) = numbers.next() else {
        return Ok(None);
    };
    let Some(num) = numbers.next() else {
        return Ok(None);
    };
    let Some(degree) = numbers.next() else {
        return Ok(None);
    };
    let Some(ports) = read_ports(alloc, numbers, degree)? else {
        return Ok(None);
    };
    Ok(Some(MapRow {
        id,
        up,
        mark,
        num,
        ports: PortList::from_vec(ports),
    }))
}

fn read_ports<C: NumCode>(
    alloc: Global,
    numbers: &mut Numbers<'_, C>,
    count: u64,
) -> Result<Option<Vec<(u64, u64)>>, NoMemory>
    ensures found { IfOk result (λ found. IfSome found (λ ports.
        many_off port_off count numbers.old.numbers ≡ Some (ports.items, numbers.new.numbers))) }
    ensures same { IfOk result (λ found. IfSome found
        (λ _. numbers.new.clean ≡ numbers.old.clean)) }
    ensures none { IfOk result (λ found. IfNone found
        (many_off port_off count numbers.old.numbers ≡ None)) }
{
    let mut ports = Vec::new(alloc);
    for _ in 0..count {
        let Some(port) = read_port(numbers) else {
            return Ok(None);
        };
        ports.push(port)?;
    }
    Ok(Some(ports))
}

fn read_port<C: NumCode>(numbers: &mut Numbers<'_, C>) -> Option<(u64, u64)>
    ensures found { IfSome result
        (λ port. port_off numbers.old.numbers ≡ Some (port, numbers.new.numbers)) }
    ensures same { IfSome result (λ _. numbers.new.clean ≡ numbers.old.clean) }
    ensures none { IfNone result (port_off numbers.old.numbers ≡ None) }
{
    let nbr = numbers.next()?;
    let weight = numbers.next()?;
    Some((nbr, weight))
}
