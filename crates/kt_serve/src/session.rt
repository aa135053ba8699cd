//! The commands of one session, in order, by one pass.
ghost use Rattle.std.specs.Prelude.{◌≡◌, ◌≢◌, ◌<◌, ◌≤◌, ◌+◌, ◌++◌, ◌∷◌, ◌^◌, ℕ, [], OnOk, OnErr, Ok, Err, Some, None, true, false, length};
ghost use Rattle.kt_history.specs.declared.command.Command.{Command};
ghost use Rattle.kt_history.specs.declared.reply.Reply.{Reply};
ghost use Rattle.kt_history.specs.Machine.{nth};
ghost use Rattle.kt_seatlock.specs.Passes.{number, seen, part, MayEnter, IsBack};
ghost use Rattle.kt_engine.specs.Visits.{Root};
ghost use Rattle.kt_serve.specs.Maintained.{HasNoJob, HasRounds, StoreRests, chores_in};
ghost use Rattle.kt_serve.specs.Points.{CameTo};
ghost use Rattle.kt_serve.specs.Scans.{IsOn, TellsBut};
ghost use Rattle.kt_serve.specs.Sessions.{IsFree, IsCommand, HasNoLog, CanRun, SameRoot, OnRoot, TellsOwn, has_stop};

use crate::chores::Chores;
use crate::log::Halt;
use crate::replies::SessionReplies;
use crate::tablet::SharedTablet;
use crate::visits::clear_room;
use kt_base::{Clock, NoMemory};
use kt_disk::{Disk, Gate, Point};
use kt_engine::{Engine, Stopped};
use kt_history::{Command, Reply};
use kt_schema::Schema;
use kt_seatlock::Pass;
use std::alloc::Global;
use std::sync::Wait;

/// What a session ends with: its replies, and why it has no more of them.
#[derive(Drop)]
pub struct SessionEnd {
    pub replies: SessionReplies,
    pub halt: Option<Halt>,
}

fn is_stopped(reply: &Reply) -> bool
    ensures stopped { result ≡ true → reply.now ≡ Reply.Stopped }
    ensures other { result ≡ false → reply.now ≢ Reply.Stopped }
{
    match reply {
        Reply::Stopped => true,
        _ => false,
    }
}

// Takes the next command, and keeps its reply.
fn take_next<L: Disk, D: Disk + Drop, C: Clock, R: Wait, G: Gate, H: Chores<L, D, C>>(
    rt: &R,
    alloc: Global,
    schema: &Schema,
    tablet: &SharedTablet<L, D, C>,
    pass: &mut Pass<Engine<L, D, C>>,
    index: u32,
    command: &Command,
    gate: &G,
    chores: &H,
    replies: &mut Vec<Reply>,
) -> Result<(), Halt>
    requires enters { MayEnter tablet.now.lock pass.old }
    requires on { OnRoot (part pass.old) (λ root. IsOn schema.now root.work) }
    requires rests { StoreRests (part pass.old) }
    requires next { IsFree (part pass.old) index }
    requires command { IsCommand (part pass.old) (number pass.old) index command.now }
    requires runs { CanRun index command.now }
    requires index { index ≡ length replies.old.items + 1 }
    requires tells { OnRoot (part pass.old) (λ root. TellsOwn root (number pass.old) replies.old.items (seen pass.old)) }
    ensures pass { IsBack pass.old pass.new }
    ensures rests { StoreRests (part pass.new) }
    ensures home { HasNoLog (part pass.new) }
    ensures root { SameRoot (part pass.old) (part pass.new) }
    ensures tells { result ≢ Err Halt.Memory → OnRoot (part pass.old) (λ root. TellsOwn root (number pass.old) replies.new.items (seen pass.new)) }
    ensures lost { result ≡ Err Halt.Memory → OnRoot (part pass.old) (λ root. TellsBut root (number pass.old) replies.new.items (seen pass.new)) }
    ensures next { OnOk result (IsFree (part pass.new) (index + 1)) }
    ensures more { OnOk result (length replies.new.items ≡ length replies.old.items + 1) }
    ensures same { OnErr result (replies.new.items ≡ replies.old.items) }
    ensures stopped { result ≡ Err Halt.Stopped → has_stop (seen pass.new) ≡ true }
    ensures none { result ≢ Err Halt.Stopped → HasNoJob (part pass.old) → HasNoJob (part pass.new) }
    ensures rounds { OnOk result ((n : ℕ) → n + 1 < 2 ^ 64 → HasRounds n (part pass.old) → HasRounds (n + chores_in (command.now ∷ [])) (part pass.new)) }
    ensures points { OnOk result ((reply : Reply) × (replies.new.items ≡ replies.old.items ++ reply ∷ []) × CameTo G.came gate.now (number pass.old) index reply) }
{
    if replies.reserve(1).is_err() {
        return Err(Halt::Memory);
    }
    let session = pass.number();
    gate.at(Point::Before { session, index });
    match tablet.take(rt, alloc, schema, pass, index, command, gate, chores) {
        Ok(reply) => {
            gate.at(Point::After { session, index });
            if is_stopped(&reply) {
                return Err(Halt::Stopped);
            }
            replies.push_reserved(reply);
            Ok(())
        }
        Err(NoMemory) => Err(Halt::Memory),
    }
}

// Runs the commands of a session in turn.
fn run_commands<L: Disk, D: Disk + Drop, C: Clock, R: Wait, G: Gate, H: Chores<L, D, C>>(
    rt: &R,
    alloc: Global,
    schema: &Schema,
    tablet: &SharedTablet<L, D, C>,
    commands: &[Command],
    pass: &mut Pass<Engine<L, D, C>>,
    gate: &G,
    chores: &H,
) -> SessionEnd
    requires enters { MayEnter tablet.now.lock pass.old }
    requires on { OnRoot (part pass.old) (λ root. IsOn schema.now root.work) }
    requires rests { StoreRests (part pass.old) }
    requires next { IsFree (part pass.old) 1 }
    requires plan { OnRoot (part pass.old) (λ root. nth root.work.plan (number pass.old) ≡ Some commands.now) }
    requires runs { (k : ℕ) (command : Command) → nth commands.now k ≡ Some command → CanRun k command }
    requires few { length commands.now < 2 ^ 31 }
    requires tells { OnRoot (part pass.old) (λ root. TellsOwn root (number pass.old) [] (seen pass.old)) }
    ensures pass { IsBack pass.old pass.new }
    ensures rests { StoreRests (part pass.new) }
    ensures home { HasNoLog (part pass.new) }
    ensures root { SameRoot (part pass.old) (part pass.new) }
    ensures tells { result.halt ≢ Some Halt.Memory → OnRoot (part pass.old) (λ root. TellsOwn root (number pass.old) result.replies (seen pass.new)) }
    ensures lost { result.halt ≡ Some Halt.Memory → OnRoot (part pass.old) (λ root. TellsBut root (number pass.old) result.replies (seen pass.new)) }
    ensures all { result.halt ≡ None → length result.replies ≡ length commands.now }
    ensures stopped { result.halt ≡ Some Halt.Stopped → has_stop (seen pass.new) ≡ true }
    ensures none { result.halt ≢ Some Halt.Stopped → HasNoJob (part pass.old) → HasNoJob (part pass.new) }
    ensures rounds { result.halt ≡ None → HasRounds (chores_in commands.now) (part pass.new) }
    ensures points { (k : ℕ) (reply : Reply) → nth result.replies k ≡ Some reply → CameTo G.came gate.now (number pass.old) k reply }
{
    let mut replies = Vec::new(alloc);
    for at in 0..commands.len() {
        let index = at as u32 + 1;
        match take_next(
            rt,
            alloc,
            schema,
            tablet,
            pass,
            index,
            &commands[at],
            gate,
            chores,
            &mut replies,
        ) {
            Ok(()) => {}
            Err(halt) => {
                return SessionEnd {
                    replies: SessionReplies::of(replies),
                    halt: Some(halt),
                };
            }
        }
    }
    SessionEnd {
        replies: SessionReplies::of(replies),
        halt: None,
    }
}

/// Runs a session to its end. Its replies are what the lines that its pass has then seen tell for its commands, and no
/// other command of it has one. A command that met want of memory has no reply, though a line may answer it. Of a whole session the pass has begun a round at
/// least for each command that asks for maintenance. It is left no job unless the tablet has stopped. Where more cells are in use than a session may
/// begin with, it makes room first.
pub fn run_session<L: Disk, D: Disk + Drop, C: Clock, R: Wait, G: Gate, H: Chores<L, D, C>>(
    rt: &R,
    alloc: Global,
    schema: &Schema,
    tablet: &SharedTablet<L, D, C>,
    commands: &[Command],
    pass: &mut Pass<Engine<L, D, C>>,
    gate: &G,
    chores: &H,
) -> SessionEnd
    requires enters { MayEnter tablet.now.lock pass.old }
    requires on { OnRoot (part pass.old) (λ root. IsOn schema.now root.work) }
    requires rests { StoreRests (part pass.old) }
    requires next { IsFree (part pass.old) 1 }
    requires plan { OnRoot (part pass.old) (λ root. nth root.work.plan (number pass.old) ≡ Some commands.now) }
    requires runs { (k : ℕ) (command : Command) → nth commands.now k ≡ Some command → CanRun k command }
    requires few { length commands.now < 2 ^ 31 }
    requires tells { OnRoot (part pass.old) (λ root. TellsOwn root (number pass.old) [] (seen pass.old)) }
    ensures pass { IsBack pass.old pass.new }
    ensures rests { StoreRests (part pass.new) }
    ensures home { HasNoLog (part pass.new) }
    ensures root { SameRoot (part pass.old) (part pass.new) }
    ensures tells { result.halt ≢ Some Halt.Memory → OnRoot (part pass.old) (λ root. TellsOwn root (number pass.old) result.replies (seen pass.new)) }
    ensures lost { result.halt ≡ Some Halt.Memory → OnRoot (part pass.old) (λ root. TellsBut root (number pass.old) result.replies (seen pass.new)) }
    ensures all { result.halt ≡ None → length result.replies ≡ length commands.now }
    ensures stopped { result.halt ≡ Some Halt.Stopped → has_stop (seen pass.new) ≡ true }
    ensures none { result.halt ≢ Some Halt.Stopped → HasNoJob (part pass.old) → HasNoJob (part pass.new) }
    ensures rounds { result.halt ≡ None → HasRounds (chores_in commands.now) (part pass.new) }
    ensures points { (k : ℕ) (reply : Reply) → nth result.replies k ≡ Some reply → CameTo G.came gate.now (number pass.old) k reply }
{
    match clear_room(rt, alloc, &tablet.lock, pass, chores) {
        Ok(()) => run_commands(rt, alloc, schema, tablet, commands, pass, gate, chores),
        Err(Stopped) => SessionEnd {
            replies: SessionReplies::none(alloc),
            halt: Some(Halt::Stopped),
        },
    }
}
