// What the price program prints, formatted into a lent buffer line by line (request L5).
#![tactic(auto)]

ghost use Rattle.std.specs.Prelude.{◌+◌, ◌≤◌, length};
ghost use Rattle.definitions.specs.Basics.{test_bit};
ghost use Rattle.definitions.specs.Limits.{most_steps};
ghost use Rattle.definitions.specs.Price.{price_text};
ghost use Rattle.data_buffers.specs.Texts.{Put};
ghost use Rattle.print_line.specs.Texts.{Printed};
ghost use Rattle.print_price.specs.Texts.{LineFits, LinesFit, comparisons_line, comparisons_part, price, price_room, registers_cell, registers_part, total_line};

// The registers line of a, where a is open.
fn put_registers_at(
    unbounded: u64,
    registers: &[u32; 64],
    a: usize,
    out: &mut [u8],
    at: usize,
) -> usize
    requires { LineFits a (registers_cell unbounded registers.now a) at out.old }
    ensures { Put (registers_cell unbounded registers.now a) at result out.old out.new }
{
    if data_bits::has(unbounded, a) {
        let numbers = [a as u32, registers[a]];
        return print_line::put_line(b"registers", &numbers, out, at);
    }
    at
}

// Every registers line.
fn put_registers(
    unbounded: u64,
    n: usize,
    registers: &[u32; 64],
    out: &mut [u8],
    at: usize,
) -> usize
    requires { LinesFit n (registers_part unbounded n registers.now) at out.old }
    ensures { Put (registers_part unbounded n registers.now) at result out.old out.new }
{
    let mut p = at;
    for a in 0..n {
        p = put_registers_at(unbounded, registers, a, out, p);
    }
    p
}

// The comparisons line of v.
fn put_comparisons_at(comparisons: &[u32; 64], v: usize, out: &mut [u8], at: usize) -> usize
    requires { LineFits v (comparisons_line comparisons.now v) at out.old }
    ensures { Put (comparisons_line comparisons.now v) at result out.old out.new }
{
    let numbers = [v as u32, comparisons[v]];
    print_line::put_line(b"comparisons", &numbers, out, at)
}

// Every comparisons line.
fn put_comparisons(n: usize, comparisons: &[u32; 64], out: &mut [u8], at: usize) -> usize
    requires { LinesFit n (comparisons_part n comparisons.now) at out.old }
    ensures { Put (comparisons_part n comparisons.now) at result out.old out.new }
{
    let mut p = at;
    for v in 0..n {
        p = put_comparisons_at(comparisons, v, out, p);
    }
    p
}

// The line of the two sums.
fn put_total(registers: u32, comparisons: u32, out: &mut [u8], at: usize) -> usize
    requires { at + length (total_line registers comparisons) ≤ length out.old }
    ensures { Put (total_line registers comparisons) at result out.old out.new }
{
    let numbers = [registers, comparisons];
    print_line::put_line(b"total", &numbers, out, at)
}

// What is printed of a sheet that is priced: the registers of its open steps, which stand in a map, the comparisons of its n steps, and the two sums. Returns how many bytes there are.
pub fn print_price(
    unbounded: u64,
    n: usize,
    registers: &[u32; 64],
    comparisons: &[u32; 64],
    register_total: u32,
    comparison_total: u32,
    out: &mut [u8],
) -> usize
    requires { (n ≤ most_steps) × (price_room ≤ length out.old) }
    ensures { Printed (price_text (test_bit unbounded) n (price registers.now comparisons.now register_total comparison_total)) result out.old out.new }
{
    let p = put_registers(unbounded, n, registers, out, 0);
    let q = put_comparisons(n, comparisons, out, p);
    put_total(register_total, comparison_total, out, q)
}
