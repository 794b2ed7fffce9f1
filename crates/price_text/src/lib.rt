// The text that the price program prints of a sheet, formatted into a lent buffer: its price where the sheet is priced with waits allowed, else its refusal (request L5).
#![tactic(auto)]

ghost use Rattle.std.specs.Prelude.{◌≤◌, length};
ghost use Rattle.definitions.specs.Price.{price_report};
ghost use Rattle.print_line.specs.Texts.{Printed};
ghost use Rattle.print_price.specs.Texts.{price_room};

// What the price program prints of a sheet, whatever its bytes. Returns how many bytes the text has. The lists have room for the most steps.
pub fn standprice(s: &[u8], out: &mut [u8]) -> usize
    requires { price_room ≤ length out.old }
    ensures { Printed (price_report s.now) result out.old out.new }
{
    let entries = price_entries::printed();
    let mut registers = [0u32; 64];
    let mut comparisons = [0u32; 64];
    match price_sheet::quote(s, true, &entries, &mut registers, &mut comparisons) {
        Ok(quoted) => print_price::print_price(
            quoted.unbounded,
            quoted.n,
            &registers,
            &comparisons,
            quoted.registers,
            quoted.comparisons,
            out,
        ),
        Err(k) => {
            let number = data_numbers::refusal_number(k);
            print_line::print_refusal(number, out)
        }
    }
}
