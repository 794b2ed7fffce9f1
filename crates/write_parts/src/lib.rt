// The parts of a sheet that is to be written (request L4), seen once each: what is wrong with them, and how many bytes they have.
#![tactic(auto)]

ghost use Rattle.std.specs.Prelude.{◌≡◌, not, ◌&&◌, ◌||◌, ◌≤◌, take};
ghost use Rattle.definitions.specs.Bytes.{link_map, operation_map, sequenced};
ghost use Rattle.definitions.specs.Limits.{most_steps};
ghost use Rattle.write_parts.specs.Parts.{LinkSeen, LinksReady, LinksScanned, LinksSmall, StepSeen, StepsScanned, StepsSmall, cell_of};

use definitions::{Link, Operation};
use read_fields::has;
use read_pair::endpoints_allowed;

// What the step records show: whether every map is allowed, and how many bytes they have.
#[derive(Clone, Copy)]
pub struct StepsFound {
    pub mapped: bool,
    pub size: usize,
}

// What the link records show: whether some map is not allowed (4), some limit from the finish stands without after (26), an end is no step or both are one (5); and how many bytes they have.
#[derive(Clone, Copy)]
pub struct LinksFound {
    pub unmapped: bool,
    pub unsequenced: bool,
    pub misplaced: bool,
    pub size: usize,
}

// Whether the map of a step is allowed: step 0 is plainly open.
fn step_allowed(first: bool, m: u8) -> bool
    ensures { result ≡ operation_map first m }
{
    if first { m == 1 } else { m <= 2 || m == 5 }
}

// Whether the map of a link record is allowed: some bit stands, none above 4, and no gap without after.
fn link_allowed(m: u8) -> bool
    ensures { result ≡ link_map m }
{
    1 <= m && m <= 31 && (has(m, 0) || !has(m, 3))
}

// Whether a limit from the finish stands only where after does.
fn is_sequenced(m: u8) -> bool
    ensures { result ≡ sequenced m }
{
    has(m, 0) || !has(m, 4)
}

// One step more.
fn see_step(seen: StepsFound, o: Operation, first: bool) -> StepsFound
    requires { StepsSmall seen }
    ensures { StepSeen first o seen result }
{
    let allowed = step_allowed(first, write_fields::step_map(o));
    StepsFound {
        mapped: seen.mapped && allowed,
        size: seen.size + write_fields::step_size(o),
    }
}

// The first n steps.
pub fn scan_steps(steps: [Operation; 64], n: usize) -> StepsFound
    requires { n ≤ most_steps }
    ensures { StepsScanned (take n steps) result }
{
    let mut seen = StepsFound {
        mapped: true,
        size: 0,
    };
    for (i, step) in steps[..n].iter().enumerate() {
        seen = see_step(seen, *step, i == 0);
    }
    seen
}

// One link record more.
fn see_link(seen: LinksFound, l: Link, n: usize) -> LinksFound
    requires { LinksSmall seen }
    ensures { LinkSeen n l seen result }
{
    let m = write_fields::link_map(l);
    LinksFound {
        unmapped: seen.unmapped || !link_allowed(m),
        unsequenced: seen.unsequenced || !is_sequenced(m),
        misplaced: seen.misplaced || !endpoints_allowed(n, l.from, l.to),
        size: seen.size + write_fields::link_size(l),
    }
}

// The cell of a record's pair, by which it is ordered.
fn cell(l: Link) -> u16
    ensures { result ≡ cell_of l }
{
    u16::from(l.from) * 64 + u16::from(l.to)
}

// The first r link records, with their cells at the front of a lent list.
pub fn scan_links(links: [Link; 512], r: usize, n: usize, cells: &mut [u16]) -> LinksFound
    requires { LinksReady r cells.old }
    ensures { LinksScanned n (take r links) cells.old result cells.new }
{
    let mut seen = LinksFound {
        unmapped: false,
        unsequenced: false,
        misplaced: false,
        size: 0,
    };
    for (i, link) in links[..r].iter().enumerate() {
        seen = see_link(seen, *link, n);
        cells[i] = cell(*link);
    }
    seen
}
