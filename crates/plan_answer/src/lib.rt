// The calls over bytes, in one: a sheet is read and analysed once, and what is asked of it is answered, with the waits beside it. The crates judge_sheet, plan_sheet and plan_times each ask one question.
// What is large and local has few sizes, of which the least that is enough is cleared (an array's length is part of its type): the ladders of sizes stand here and nowhere else.
#![tactic(auto)]

ghost use Rattle.std.specs.Prelude.{◌≡◌, true, false, List, ◌++◌, ◌≤◌, length, drop};
ghost use Rattle.definitions.specs.Bytes as Bytes;
ghost use Rattle.definitions.specs.Limits.{most_edges, most_steps};
ghost use Rattle.definitions.specs.Links.{Edge, members};
ghost use Rattle.definitions.specs.Numbers.{verdict_of};
ghost use Rattle.definitions.specs.declared.Operation.{Operation};
ghost use Rattle.data_edges.specs.Serial.{leasts_in};
ghost use Rattle.data_edges.specs.Words.{graph};
ghost use Rattle.data_lists.specs.Graphs.{edges_in};
ghost use Rattle.read_fields.specs.Counts.{edge_room};
ghost use Rattle.theory.specs.Graphs.{SheetLeasts};
ghost use Rattle.data_numbers.specs.Codes.{is_given};
ghost use Rattle.read_sheet.specs.Answers.{Reports};
ghost use Rattle.plan_walks.specs.Tables.{Blank, SheetEdges, Tabulable, Tabulated};
ghost use Rattle.plan_answer.specs.Questions.{Answers, Checked, Fitting, Listable, Responds, StepsHeld, Writable, list_wrong, numbers_of, short};

use data_lists::Edges;
use data_numbers::accepted;
use definitions::{MOST_ADDED, MOST_EDGES, Refusal, Verdict};
use judge_edges::Found;
use plan_deciding::Tables;
use plan_walks::tabulate;
use read_sheet::Report;

// What is asked of a sheet beside its verdict and its waits: nothing; its plan; its start times for a list of durations.
#[derive(Clone, Copy)]
pub enum Question {
    Judgement,
    Plan,
    Starts,
}

// What goes with a question: waits allowed or not, and the list of durations that start times are asked for. The question itself is handed on beside it, so that the code for others is left out where one alone is asked.
#[derive(Clone, Copy)]
struct Asked<'a> {
    allow: bool,
    list: &'a [u32],
}

// The steps of a sheet: how many there are, the map of the open ones other than 0, and their leasts.
#[derive(Clone, Copy)]
struct Steps<'a> {
    n: usize,
    unbounded: u64,
    leasts: &'a [u16; 64],
}

// ---- the sizes

// Most sheets have few link records, and the words of their edges, four for each record and one for each link that is added, are then few.
const FEW_RECORDS: u16 = 16;

const FEW_WORDS: usize = 4 * (FEW_RECORDS as usize) + MOST_ADDED;

const SOME_RECORDS: u16 = 32;

const SOME_WORDS: usize = 4 * (SOME_RECORDS as usize) + MOST_ADDED;

const MANY_RECORDS: u16 = 128;

const MANY_WORDS: usize = 4 * (MANY_RECORDS as usize) + MOST_ADDED;

// Rows of the working table: most of what a small sheet pays for is the clearing of them.
const FEW_STEPS: usize = 8;

const SOME_STEPS: usize = 16;

const MOST_STEPS: usize = 64;

// Adjacency lists: a number for each step that there may be, and one for each edge; behind them the returns, of which there may be as many as edges, and a 0.
const FEW_EDGES: usize = 256;

const FEW_LISTED: usize = 64 + 2 * FEW_EDGES + 1;

const MOST_LISTED: usize = 64 + 2 * MOST_EDGES + 1;

// ---- from the verdict, the working table and the anchor sets

// Whether 13 applies: an entry of the list of durations is above its limit or below its least.
fn wrong_list(question: Question, asked: Asked, steps: Steps) -> bool
    requires { steps.n ≤ most_steps }
    ensures { (os : List Operation) → StepsHeld steps.entry.n steps.entry.unbounded steps.entry.leasts.now os → result ≡ list_wrong question os asked.entry.list.now }
{
    match question {
        Question::Judgement | Question::Plan => false,
        Question::Starts => {
            plan_durations::delays_bad(asked.list, steps.unbounded, steps.leasts, steps.n)
        }
    }
}

// Whether 14 applies: a lent list or table has too few numbers.
fn too_short(question: Question, n: usize, list: usize, room: usize) -> bool
    requires { n ≤ most_steps }
    ensures { result ≡ short question n list room }
{
    match question {
        Question::Judgement => false,
        Question::Plan => room < n * n,
        Question::Starts => {
            if list < n {
                return true;
            }
            room < n
        }
    }
}

// 13 and 14 after a verdict, as far as the question has them.
fn checked(verdict: Verdict, question: Question, asked: Asked, steps: Steps, room: usize) -> Verdict
    requires { steps.n ≤ most_steps }
    ensures { Checked (verdict_of verdict) question steps.entry.n steps.entry.unbounded steps.entry.leasts.now asked.entry.list.now room (verdict_of result) }
{
    if !accepted(verdict) {
        return verdict;
    }
    if wrong_list(question, asked, steps) {
        return Err(Refusal::BadDelays);
    }
    if too_short(question, steps.n, asked.list.len(), room) {
        return Err(Refusal::TooShort);
    }
    verdict
}

// The numbers that are asked for, to the front of those that are lent.
fn write(tables: Tables, n: usize, question: Question, asked: Asked, out: &mut [u32])
    requires { Writable question n tables.cells.now tables.sets.now asked.list.now out.old }
    ensures { (g : List Edge) → SheetLeasts (leasts_in tables.entry.leasts.now) (members g) → Tabulated n (leasts_in tables.entry.leasts.now) g tables.entry.number.now tables.entry.cells.now tables.entry.sets.now → Fitting question n (leasts_in tables.entry.leasts.now) g asked.entry.list.now → out.new ≡ numbers_of question n (leasts_in tables.entry.leasts.now) g asked.entry.list.now ++ drop (length (numbers_of question n (leasts_in tables.entry.leasts.now) g asked.entry.list.now)) out.old }
{
    match question {
        Question::Judgement => {}
        Question::Plan => {
            plan_table::fill_plan(tables, n, out);
        }
        Question::Starts => {
            plan_starts::fill_starts(tables, n, asked.list, out);
        }
    }
}

// ---- from the edges of a sheet: words stand for them, as in the crate data_edges

// The answer, by a table without walks that has a row for each step.
fn answer_on(
    d: &mut [[i32; 64]],
    es: Edges,
    steps: Steps,
    question: Question,
    asked: Asked,
    out: &mut [u32],
    maps: &mut [u64; 64],
) -> Found
    requires { Tabulable steps.n (leasts_in steps.leasts.now) es.words.now d.old × Blank maps.old }
    ensures { (os : List Operation) → StepsHeld steps.entry.n steps.entry.unbounded steps.entry.leasts.now os → Responds question steps.entry.n (leasts_in steps.entry.leasts.now) (edges_in es.entry) asked.entry.allow os asked.entry.list.now out.old result out.new maps.new }
{
    let mut number = [64u8; 64];
    let mut sets = [0u64; 64];
    let found = tabulate(
        d,
        &mut number,
        es,
        steps.leasts,
        steps.n,
        asked.allow,
        &mut sets,
        maps,
    );
    let verdict = checked(found.verdict, question, asked, steps, out.len());
    let answer = Found {
        sorted: found.sorted,
        verdict,
        count: found.count,
    };
    if !accepted(verdict) {
        return answer;
    }
    let tables = Tables {
        cells: d,
        number: &number,
        leasts: steps.leasts,
        sets: &sets,
    };
    write(tables, steps.n, question, asked, out);
    answer
}

// The answer, with a table of so many rows, which are enough for the steps.
fn answer_rows<const ROWS: usize>(
    es: Edges,
    steps: Steps,
    question: Question,
    asked: Asked,
    out: &mut [u32],
    maps: &mut [u64; 64],
) -> Found
    requires { SheetEdges steps.n (leasts_in steps.leasts.now) es.words.now × (steps.n ≤ ROWS) × (ROWS ≤ most_steps) × Blank maps.old }
    ensures { (os : List Operation) → StepsHeld steps.entry.n steps.entry.unbounded steps.entry.leasts.now os → Responds question steps.entry.n (leasts_in steps.entry.leasts.now) (edges_in es.entry) asked.entry.allow os asked.entry.list.now out.old result out.new maps.new }
{
    let mut d = [[walk_cells::NONE; 64]; ROWS];
    answer_on(&mut d, es, steps, question, asked, out, maps)
}

// The answer, with numbers lent for the adjacency lists. A judgement needs no table; few rows of it are cleared where few are needed.
fn answer_listed(
    es: &[u64],
    lists: &mut [u16],
    steps: Steps,
    question: Question,
    asked: Asked,
    out: &mut [u32],
    maps: &mut [u64; 64],
) -> Found
    requires { Listable steps.n (leasts_in steps.leasts.now) es.now lists.old × Blank maps.old }
    ensures { (os : List Operation) → StepsHeld steps.entry.n steps.entry.unbounded steps.entry.leasts.now os → Responds question steps.entry.n (leasts_in steps.entry.leasts.now) (graph es.now) asked.entry.allow os asked.entry.list.now out.old result out.new maps.new }
{
    data_lists::list(es, lists);
    let es = Edges { words: es, lists };
    if let Question::Judgement = question {
        return judge_edges::judge_edges(es, steps.leasts, steps.n, asked.allow, maps);
    }
    if steps.n <= FEW_STEPS {
        return answer_rows::<FEW_STEPS>(es, steps, question, asked, out, maps);
    }
    if steps.n <= SOME_STEPS {
        return answer_rows::<SOME_STEPS>(es, steps, question, asked, out, maps);
    }
    answer_rows::<MOST_STEPS>(es, steps, question, asked, out, maps)
}

// The answer from the edges of a sheet and its steps.
fn answer_edges(
    es: &[u64],
    steps: Steps,
    question: Question,
    asked: Asked,
    out: &mut [u32],
    maps: &mut [u64; 64],
) -> Found
    requires { SheetEdges steps.n (leasts_in steps.leasts.now) es.now × Blank maps.old }
    ensures { (os : List Operation) → StepsHeld steps.entry.n steps.entry.unbounded steps.entry.leasts.now os → Responds question steps.entry.n (leasts_in steps.entry.leasts.now) (graph es.now) asked.entry.allow os asked.entry.list.now out.old result out.new maps.new }
{
    if es.len() <= FEW_EDGES {
        let mut lists = [0u16; FEW_LISTED];
        return answer_listed(es, &mut lists, steps, question, asked, out, maps);
    }
    let mut lists = [0u16; MOST_LISTED];
    answer_listed(es, &mut lists, steps, question, asked, out, maps)
}

// ---- over bytes

// The answer, from what was read of a sheet, the words that hold its edges and the leasts of its steps.
fn answer_read(
    s: &[u8],
    read: Result<Report, Refusal>,
    words: &[u64],
    leasts: &[u16; 64],
    question: Question,
    asked: Asked,
    out: &mut [u32],
    maps: &mut [u64; 64],
) -> Found
    requires { Reports (Bytes.read s.now) words.now leasts.now read × Blank maps.old }
    ensures { Answers question s.now asked.entry.allow asked.entry.list.now out.old result out.new maps.new }
{
    let report = match read {
        Ok(report) => report,
        Err(k) => {
            return Found {
                sorted: false,
                verdict: Err(k),
                count: 0,
            };
        }
    };
    let steps = Steps {
        n: report.n,
        unbounded: report.unbounded,
        leasts,
    };
    answer_edges(&words[..report.count], steps, question, asked, out, maps)
}

// The answer, with so many words for the edges, which is room enough for those of the sheet.
fn answer_within<const WORDS: usize>(
    s: &[u8],
    question: Question,
    asked: Asked,
    out: &mut [u32],
    maps: &mut [u64; 64],
) -> Found
    requires { (edge_room s.now ≤ WORDS) × (WORDS ≤ most_edges) × Blank maps.old }
    ensures { Answers question s.now asked.entry.allow asked.entry.list.now out.old result out.new maps.new }
{
    let mut words = [0u64; WORDS];
    let mut leasts = [0u16; 64];
    let read = read_sheet::read(s, &mut words, &mut leasts);
    answer_read(s, read, &words, &leasts, question, asked, out, maps)
}

// Answers a question about a sheet, whatever its bytes: the verdict, and on acceptance the numbers that are asked for at the front of `out`; all other numbers stay as lent.
// Beside it stand the waits, whatever is asked: bit a of map i, and their count; none where the sheet would be refused with waits allowed.
pub fn answer(
    s: &[u8],
    allow: bool,
    question: Question,
    list: &[u32],
    out: &mut [u32],
    maps: &mut [u64; 64],
) -> Found
    requires { Blank maps.old }
    ensures { Answers question s.now allow list.now out.old result out.new maps.new }
{
    let asked = Asked { allow, list };
    if read_fields::is_brief(s, FEW_RECORDS) {
        return answer_within::<FEW_WORDS>(s, question, asked, out, maps);
    }
    if read_fields::is_brief(s, SOME_RECORDS) {
        return answer_within::<SOME_WORDS>(s, question, asked, out, maps);
    }
    if read_fields::is_brief(s, MANY_RECORDS) {
        return answer_within::<MANY_WORDS>(s, question, asked, out, maps);
    }
    answer_within::<MOST_EDGES>(s, question, asked, out, maps)
}
