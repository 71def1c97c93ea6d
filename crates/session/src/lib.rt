// A trace judged as it arrives (document 02, No. 6). A record that lies whole in a run of bytes is judged where it lies; of
// any other the bytes are held until it is whole.
#![tactic(auto)]

ghost use Rattle.std.specs.Prelude.{◌≡◌, ◌+◌, ◌*◌, ◌<◌, ◌≤◌, false, not, ◌&&◌, ◌++◌, length, take};
ghost use Rattle.std.specs.Prelude.{slice_index, IfOk, IfErr, IsTrue, ◌↔◌};
ghost use Rattle.std.proofs.lemmas.List.Edits.{sets};
ghost use Rattle.state.specs.Choice.{◌is◌};
ghost use Rattle.records.specs.Layout.{step_size, most_steps, is_old};
ghost use Rattle.records.specs.Report.{ACCEPTED as accepted, start_number};
ghost use Rattle.records.specs.Claims.{start_of};
ghost use Rattle.records.specs.Judged.{Judged};
ghost use Rattle.records.specs.Which.{old, its};
ghost use Rattle.state.specs.Refusal.{number, number_of};
ghost use Rattle.records.specs.Session.{
  session,
  feed_number,
  close_number,
  closing,
  shutting,
  opened_session,
  comes_old,
  fed_session,
  narrowed,
  widened,
  nothing_held,
  due,
  due_size,
  due_kind,
  due_count,
  advancing,
  faulty,
  fed,
};
ghost use Rattle.records.specs.Fed.{Room, Due as Found, Taken, Takes, head_seen, seen_from, stepped, concluded};

use judgements::{ACCEPTED, judge_end, judge_head, judge_start, judge_steps};
use records::layout;
use records::layout::Layout;
use records::report::Report;
use records::session::{AT_START, NEXT, OLD_NEXT, OVER, Progress, RECORD_SIZE, Session};
use state::place::BLOCK_SIZE;
use state::refusal::Refusal;
use words::runs::copy;
use words::word_at;

// Where the kind of a record stands.
const KIND: usize = 2;

// A session before its first byte.
pub fn open() -> Session
    ensures { result ≡ opened_session }
{
    Session {
        progress: Progress {
            stage: AT_START,
            count: 0,
            steps: 0,
            place: 0,
            held: 0,
            fault: ACCEPTED,
            closed: 0,
        },
        block: [0u8; BLOCK_SIZE],
        unfinished: [0u8; RECORD_SIZE],
    }
}

// The stage behind a right Start.
fn next(layout: Layout) -> u32
    ensures { result ≡ (its layout).next }
{
    match layout {
        Layout::Old => OLD_NEXT,
        Layout::New => NEXT,
    }
}

// Whether a fault became known.
fn newly(before: u32, after: u32) -> bool
    ensures { result ≡ (before is 0 && not (after is 0)) }
{
    before == ACCEPTED && after != ACCEPTED
}

// ---- the record due

// Which record it is.
#[derive(Clone, Copy, Debug, PartialEq, Eq)]
enum Due {
    Start,
    Step,
    End,
}

impl Due {
    fn of(p: Progress) -> Due
        ensures { result ≡ due p Due.Start Due.Step Due.End }
    {
        if p.stage == AT_START {
            return Due::Start;
        }
        if p.steps < p.count {
            return Due::Step;
        }
        Due::End
    }
}

fn due_size(layout: Layout, p: Progress) -> u32
    ensures { result ≡ due_size (its layout) p }
{
    match Due::of(p) {
        Due::Start => layout.start_size(),
        Due::Step => layout.step_size(),
        Due::End => layout::END_SIZE,
    }
}

fn due_kind(layout: Layout, p: Progress) -> u32
    ensures { result ≡ due_kind (its layout) p }
{
    match Due::of(p) {
        Due::Start => layout.start_kind(),
        Due::Step => layout.step_kind(),
        Due::End => layout::END_KIND,
    }
}

// A Start, whose block is the one that the first Step goes from.
#[tactic(auto, using(records::proofs::Judging::start_whole))]
fn judge_start_into(layout: Layout, r: &[u8], block: &mut [u8]) -> Result<(), Refusal>
    requires { length block.old ≡ (its layout).size }
    ensures number { number_of result ≡ start_number (its layout) r.now }
    ensures block { number_of result ≡ accepted → block.new ≡ start_of (its layout) r.now }
{
    judge_start(layout, r)?;
    copy(&r[layout::START_BLOCK..layout.start_size() as usize], block);
    Ok(())
}

// A Step, and the block after it.
fn judge_one_step(layout: Layout, r: &[u8], block: &mut [u8]) -> Result<(), Refusal>
    requires { length block.old ≡ (its layout).size }
    ensures { Judged (its layout) r.now block.old (number_of result) block.new }
{
    judge_steps(layout, r, 1, block).outcome
}

// The record due, from the bytes r on: n, where it is right, and the block that it leaves; else its fault.
fn judge_due(layout: Layout, p: Progress, r: &[u8], block: &mut [u8]) -> Result<u32, Refusal>
    requires { length block.old ≡ (its layout).size }
    ensures right { IfOk result (λ n. Found (its layout) p r.now block.old accepted block.new × (n ≡ due_count p r.now)) }
    ensures wrong { IfErr result (λ fault. Found (its layout) p r.now block.old (number fault) block.new) }
{
    match Due::of(p) {
        Due::Start => {
            judge_start_into(layout, r, block)?;
            return Ok(word_at(r, layout::COUNT));
        }
        Due::Step => judge_one_step(layout, r, block)?,
        Due::End => judge_end(r, p.steps)?,
    }
    Ok(p.count)
}

// ---- what becomes of the session

// A fault is known: nothing is kept but the numbers.
fn refuse(
    layout: Layout,
    p: Progress,
    fault: Refusal,
    block: &mut [u8],
    unfinished: &mut [u8],
) -> Progress
    requires { Room (old layout) block.old unfinished.old }
    ensures { session result block.new unfinished.new
        ≡ faulty (its layout) (session p block.old unfinished.old) (number fault) }
{
    block.fill(0);
    unfinished.fill(0);
    Progress {
        held: 0,
        fault: fault.number(),
        ..p
    }
}

// The record due was right, and this is n: the next one is due.
fn advance(layout: Layout, p: Progress, count: u32) -> Progress
    ensures { result ≡ advancing (its layout) p count }
{
    let (stage, steps) = match Due::of(p) {
        Due::Start => (next(layout), 0),
        Due::Step => (p.stage, p.steps + 1),
        Due::End => (OVER, p.steps),
    };
    Progress {
        stage,
        count,
        steps,
        place: p.place.wrapping_add(due_size(layout, p)),
        held: 0,
        ..p
    }
}

// The record due was judged, and the block is the one that it leaves.
fn conclude(
    layout: Layout,
    p: Progress,
    outcome: Result<u32, Refusal>,
    block: &mut [u8],
    unfinished: &mut [u8],
) -> Progress
    requires { Room (old layout) block.old unfinished.old }
    ensures right { IfOk outcome (λ n. session result block.new unfinished.new
        ≡ concluded (its layout) accepted p n block.old) }
    ensures wrong { IfErr outcome (λ fault. session result block.new unfinished.new
        ≡ faulty (its layout) (session p block.old unfinished.old) (number fault)) }
{
    match outcome {
        Ok(count) => {
            unfinished.fill(0);
            advance(layout, p, count)
        }
        Err(fault) => refuse(layout, p, fault, block, unfinished),
    }
}

// The head's fault, if its last byte is among the new ones, those behind the first so many.
fn judge_new_head(
    layout: Layout,
    before: u32,
    p: Progress,
    unfinished: &[u8],
) -> Result<(), Refusal>
    ensures { number_of result ≡ head_seen (its layout) before p unfinished.now }
{
    if layout::HEAD_SIZE as u32 <= before || p.held < layout::HEAD_SIZE as u32 {
        return Ok(());
    }
    judge_head(unfinished, due_size(layout, p), due_kind(layout, p))
}

// More bytes are held, behind the first so many: those of a head show whether the record is the one due, all of them whether it
// is right.
fn look(
    layout: Layout,
    before: u32,
    p: Progress,
    block: &mut [u8],
    unfinished: &mut [u8],
) -> Progress
    requires { Room (old layout) block.old unfinished.old }
    ensures { session result block.new unfinished.new
        ≡ seen_from (its layout) before (session p block.old unfinished.old) }
{
    if let Err(fault) = judge_new_head(layout, before, p, unfinished) {
        return refuse(layout, p, fault, block, unfinished);
    }
    if p.held == due_size(layout, p) {
        let outcome = judge_due(layout, p, unfinished, block);
        return conclude(layout, p, outcome, block, unfinished);
    }
    p
}

// ---- bytes come

// The numbers of a session after some bytes of a run, and how many these were.
#[derive(Clone, Copy)]
struct Turn {
    progress: Progress,
    taken: usize,
}

// The bytes r put into d from this place on.
#[tactic(auto, using(records::proofs::Feeding::put_over))]
fn put_run(d: &mut [u8], at: usize, r: &[u8])
    requires { at + length r.now ≤ length d.old }
    ensures { d.new ≡ sets d.old at r.now }
{
    copy(r, &mut d[at..]);
}

// Bytes of a record that is not whole yet, up to its end.
#[tactic(auto, using(crate::proofs::Turns::held_taken))]
fn hold(layout: Layout, p: Progress, r: &[u8], block: &mut [u8], unfinished: &mut [u8]) -> Turn
    requires { (0 < length r.now) × Takes (its layout) p × Room (old layout) block.old unfinished.old }
    ensures { Taken (its layout) (session p block.old unfinished.old) r.now
        (session result.progress block.new unfinished.new) result.taken }
{
    let at = p.held as usize;
    let taken = (due_size(layout, p) as usize - at).min(r.len());
    put_run(unfinished, at, &r[..taken]);
    let q = Progress {
        held: (at + taken) as u32,
        ..p
    };
    Turn {
        progress: look(layout, p.held, q, block, unfinished),
        taken,
    }
}

// How many Steps that are due lie whole in so many bytes; not more than a trace may have, so that a word counts their bytes.
fn whole_steps(layout: Layout, p: Progress, size: usize) -> u32
    requires { p.steps < p.count }
    ensures { (result ≤ most_steps) × (p.steps + result ≤ p.count) × (step_size (its layout) * result ≤ size)
        × (step_size (its layout) ≤ size → 0 < result) }
{
    let most = (p.count - p.steps).min(layout::MOST_STEPS) as usize;
    most.min(size / (layout.step_size() as usize)) as u32
}

// The numbers behind so many right Steps.
fn step_on(layout: Layout, p: Progress, right: u32) -> Progress
    requires { (right ≤ most_steps) × (p.steps + right ≤ p.count) }
    ensures { result ≡ stepped (its layout) right p }
{
    Progress {
        steps: p.steps + right,
        place: p.place.wrapping_add(layout.steps_size(right)),
        ..p
    }
}

// Steps that lie whole in r, one behind the other, until one is wrong; nothing is held.
fn take_steps(
    layout: Layout,
    p: Progress,
    r: &[u8],
    block: &mut [u8],
    unfinished: &mut [u8],
) -> Turn
    requires { (step_size (its layout) ≤ length r.now) × Takes (its layout) p × (p.held ≡ 0)
        × (due_size (its layout) p ≡ step_size (its layout)) × (unfinished.old ≡ nothing_held (its layout))
        × (length block.old ≡ (its layout).size) }
    ensures { Taken (its layout) (session p block.old (nothing_held (its layout))) r.now
        (session result.progress block.new unfinished.new) result.taken }
{
    let run = judge_steps(layout, r, whole_steps(layout, p, r.len()), block);
    let q = step_on(layout, p, run.right);
    if let Err(fault) = run.outcome {
        return Turn {
            progress: refuse(layout, q, fault, block, unfinished),
            taken: r.len(),
        };
    }
    Turn {
        progress: q,
        taken: layout.steps_size(run.right) as usize,
    }
}

// Whether a record of this size lies whole in a run of that length: nothing of it was held before.
fn lies_whole(held: u32, size: u32, length: usize) -> bool
    ensures { IsTrue result ↔ ((held ≡ 0) × (size ≤ length)) }
{
    held == 0 && size as usize <= length
}

// The first bytes of r, where the record due has room: records that lie whole in it are judged there.
#[tactic(auto, using(crate::proofs::Turns::nothing_taken))]
fn take_due(layout: Layout, p: Progress, r: &[u8], block: &mut [u8], unfinished: &mut [u8]) -> Turn
    requires { (0 < length r.now) × Takes (its layout) p × Room (old layout) block.old unfinished.old }
    ensures { Taken (its layout) (session p block.old unfinished.old) r.now
        (session result.progress block.new unfinished.new) result.taken }
{
    let size = due_size(layout, p);
    if !lies_whole(p.held, size, r.len()) {
        return hold(layout, p, r, block, unfinished);
    }
    unfinished.fill(0);
    if size == layout.step_size() {
        return take_steps(layout, p, r, block, unfinished);
    }
    let outcome = judge_due(layout, p, r, block);
    Turn {
        progress: conclude(layout, p, outcome, block, unfinished),
        taken: size as usize,
    }
}

// The first bytes of r, at least one. No feeding makes a session that holds as many bytes as its record has, or more: they leave
// such a one as it is.
#[tactic(auto, using(crate::proofs::Turns::dead_stays, crate::proofs::Turns::full_stays, crate::proofs::Turns::too_many))]
fn take(layout: Layout, p: Progress, r: &[u8], block: &mut [u8], unfinished: &mut [u8]) -> Turn
    requires { (0 < length r.now) × Room (old layout) block.old unfinished.old }
    ensures { Taken (its layout) (session p block.old unfinished.old) r.now
        (session result.progress block.new unfinished.new) result.taken }
{
    let all = Turn {
        progress: p,
        taken: r.len(),
    };
    if p.closed != 0 || p.fault != ACCEPTED {
        return all;
    }
    if OVER <= p.stage {
        return Turn {
            progress: refuse(layout, p, Refusal::Trailing, block, unfinished),
            taken: r.len(),
        };
    }
    if due_size(layout, p) <= p.held {
        return all;
    }
    take_due(layout, p, r, block, unfinished)
}

// A run of bytes comes to a session taken apart, in a layout.
#[tactic(auto, using(std::proofs::lemmas::List::nil_from_length, records::proofs::Feeding::fed_nothing))]
fn feed_in(
    layout: Layout,
    p: Progress,
    block: &mut [u8],
    unfinished: &mut [u8],
    bytes: &[u8],
) -> Progress
    requires { Room (old layout) block.old unfinished.old }
    ensures { session result block.new unfinished.new
        ≡ fed (its layout) (session p block.old unfinished.old) bytes.now }
{
    let mut q = p;
    let mut rest = bytes;
    while !rest.is_empty() {
        let turn = take(layout, q, rest, block, unfinished);
        q = turn.progress;
        rest = &rest[turn.taken..];
    }
    q
}

// The byte at i of those that are held, so many of them, and those that come behind them.
fn begun_byte(unfinished: &[u8], held: usize, bytes: &[u8], i: usize) -> u8
    requires { (held ≤ length unfinished.now) × (i < held + length bytes.now) }
    ensures { result ≡ slice_index (take held unfinished.now ++ bytes.now) i }
{
    if i < held {
        return unfinished[i];
    }
    bytes[i - held]
}

// The layout of a Start of which these bytes are held, and these come.
#[tactic(auto, unfolding(records::specs::Layout::is_old, words::specs::Word::half))]
fn begun_layout(unfinished: &[u8; RECORD_SIZE], held: u32, bytes: &[u8]) -> Layout
    ensures { old result ≡ is_old (take held unfinished.now ++ bytes.now) }
{
    if layout::HEAD_SIZE as u32 <= held {
        return Layout::of(unfinished);
    }
    let before = held as usize;
    if bytes.len() < layout::HEAD_SIZE - before {
        return Layout::Old;
    }
    let low = begun_byte(unfinished, before, bytes, KIND);
    let high = begun_byte(unfinished, before, bytes, KIND + 1);
    if low == layout::START_KIND as u8 && high == 0 {
        return Layout::New;
    }
    Layout::Old
}

// The layout in which a run comes: while the Start is due that of its kind, then that of the stage.
fn coming_layout(p: Progress, unfinished: &[u8; RECORD_SIZE], bytes: &[u8]) -> Layout
    ensures { old result ≡ comes_old p unfinished.now bytes.now }
{
    match p.stage {
        AT_START => begun_layout(unfinished, p.held, bytes),
        NEXT => Layout::New,
        _ => Layout::Old,
    }
}

// As feed_in, where the block and the record have room for either layout: what lies behind those of this one stays.
fn feed_front(
    layout: Layout,
    p: Progress,
    block: &mut [u8],
    unfinished: &mut [u8],
    bytes: &[u8],
) -> Progress
    requires { Room false block.old unfinished.old }
    ensures { session result block.new unfinished.new
        ≡ widened (old layout) (session p block.old unfinished.old)
        (fed (its layout) (narrowed (old layout) (session p block.old unfinished.old)) bytes.now) }
{
    feed_in(
        layout,
        p,
        &mut block[..layout.block_size()],
        &mut unfinished[..layout.step_size() as usize],
        bytes,
    )
}

// A run of bytes comes to a session taken apart. What lies behind the block and the record of its layout stays, until a fault is
// known: then nothing is kept but the numbers.
#[tactic(auto, using(records::proofs::Rooms::fed_kept))]
pub fn feed(
    p: Progress,
    block: &mut [u8; BLOCK_SIZE],
    unfinished: &mut [u8; RECORD_SIZE],
    bytes: &[u8],
) -> Progress
    ensures { session result block.new unfinished.new
        ≡ fed_session (session p block.old unfinished.old) bytes.now }
{
    let layout = coming_layout(p, unfinished, bytes);
    let q = feed_front(layout, p, block, unfinished, bytes);
    if newly(p.fault, q.fault) {
        *block = [0u8; BLOCK_SIZE];
        *unfinished = [0u8; RECORD_SIZE];
    }
    q
}

// ---- what is answered

// What a feeding returns that has left these numbers.
pub fn feed_number(p: Progress) -> u32
    ensures { result ≡ feed_number p }
{
    if p.closed != 0 {
        return Refusal::Closed.number();
    }
    p.fault
}

// The report on all bytes that were fed.
pub fn close(p: Progress) -> Report
    ensures { result ≡ closing p }
{
    Report {
        number: close_number(p),
        place: p.place,
        steps: p.steps,
    }
}

// The numbers of a session after closing.
pub fn shut(p: Progress) -> Progress
    ensures { result ≡ shutting p }
{
    Progress { closed: 1, ..p }
}

fn close_number(p: Progress) -> u32
    ensures { result ≡ close_number p }
{
    if p.fault != ACCEPTED {
        return p.fault;
    }
    if OVER <= p.stage {
        return ACCEPTED;
    }
    Refusal::Short.number()
}
