// families.rt - the kinds by families: each with its function, and the line of Appendix D that it takes.
// Means: specs/Dispatch.antt, specs/Lines.antt of clocks.  Laws: proofs/ClockLaws.antt, proofs/DispatchLaws.antt.
// Uses: codes, bits, bus, plan, timing, movement, movem, integer, bitwise, control, system.  Source: [003 3], [003 D], [K2].
ghost use Rattle.std.specs.Prelude.{◌≡◌, ◌+◌, ◌<◌, map};
ghost use Rattle.bus.specs.Bus.{view_of};
ghost use Rattle.decode.specs.Kinds.{Illegal, Move, AddToRegister, AndToRegister, Bcc, AndIToCcr};
ghost use Rattle.clocks.specs.Lines.{clocks};
ghost use Rattle.execute.specs.Dispatch.{refused_plan, refused_kind, movement_kind, integer_kind, logical_kind, control_kind, system_kind};

use crate::Timed;
use bus::{Flow, Parts};
use codes::SLOTS;
use plan::Plan;

// The clocks come first: they are told from the registers before the instruction.
pub fn taking(clocks: u32, plan: Plan) -> Timed
    ensures { result ≡ record { plan = plan; clocks = clocks } }
{
    Timed { plan, clocks }
}

// A refused instruction: the saved PC is its own address.
pub fn refused(vec: u32, f: Flow) -> Plan
    ensures { result ≡ refused_plan vec f }
{
    plan::refusing(vec, bits::minus(f.pc, 2), f)
}

// Illegal, and words that begin 1010 and 1111.
pub fn refused_kind(j: u32, r: &[u32; SLOTS], mem: &Parts, op: u32, f: Flow) -> Timed
    requires { j < 3 }
    ensures plan_value { record { r = r.now; p = result.plan } ≡ refused_kind j r.now (view_of (map (λ x. x.now) mem.now)) op f }
    ensures clocks_value { result.clocks ≡ clocks (Illegal + j) r.now (view_of (map (λ x. x.now) mem.now)) op f }
{
    match j {
        0 => taking(0, refused(codes::ILLEGAL_INSTRUCTION, f)),
        1 => taking(0, refused(codes::LINE1010, f)),
        _ => taking(0, refused(codes::LINE1111, f)),
    }
}

// Data movement, from MOVE on.
pub fn movement_kind(j: u32, r: &mut [u32; SLOTS], mem: &Parts, op: u32, f: Flow) -> Timed
    requires { j < 15 }
    ensures plan_value { record { r = r.new; p = result.plan } ≡ movement_kind j r.old (view_of (map (λ x. x.now) mem.now)) op f }
    ensures clocks_value { result.clocks ≡ clocks (Move + j) r.old (view_of (map (λ x. x.now) mem.now)) op f }
{
    match j {
        0 => taking(timing::moved(op), movement::move_data(r, mem, op, f)),
        1 => taking(timing::moved(op), movement::move_address(r, mem, op, f)),
        2 => taking(4, movement::move_quick(r, mem, op, f)),
        3 => taking(
            timing::stored(4, 8, mem, op, f),
            movem::movem_to_memory(r, mem, op, f),
        ),
        4 => taking(
            timing::loaded(4, 8, mem, op, f),
            movem::movem_to_registers(r, mem, op, f),
        ),
        5 => taking(
            timing::peripheral(16, 24, op),
            movement::movep_to_register(r, mem, op, f),
        ),
        6 => taking(
            timing::peripheral(16, 24, op),
            movement::movep_to_memory(r, mem, op, f),
        ),
        7 => taking(
            timing::located(0, op),
            movement::load_address(r, mem, op, f),
        ),
        8 => taking(
            timing::located(8, op),
            movement::push_address(r, mem, op, f),
        ),
        9 => taking(6, movement::exchange_data(r, mem, op, f)),
        10 => taking(6, movement::exchange_address(r, mem, op, f)),
        11 => taking(6, movement::exchange_both(r, mem, op, f)),
        12 => taking(4, movement::swap(r, mem, op, f)),
        13 => taking(16, movement::link(r, mem, op, f)),
        _ => taking(12, movement::unlink(r, mem, op, f)),
    }
}

// Integer arithmetic, from ADD_TO_REGISTER on.
pub fn integer_kind(j: u32, r: &mut [u32; SLOTS], mem: &Parts, op: u32, f: Flow) -> Timed
    requires { j < 28 }
    ensures plan_value { record { r = r.new; p = result.plan } ≡ integer_kind j r.old (view_of (map (λ x. x.now) mem.now)) op f }
    ensures clocks_value { result.clocks ≡ clocks (AddToRegister + j) r.old (view_of (map (λ x. x.now) mem.now)) op f }
{
    match j {
        0 => taking(
            timing::sized(4, 8, 4, 6, op),
            integer::to_register(codes::ADD, r, mem, op, f),
        ),
        1 => taking(
            timing::sized(8, 12, 8, 12, op),
            integer::to_memory(codes::ADD, r, mem, op, f),
        ),
        2 => taking(
            timing::addressed(8, 8, 8, 6, op),
            integer::to_address(codes::ADD, r, mem, op, f),
        ),
        3 => taking(
            timing::sized(8, 16, 12, 20, op),
            integer::immediate_to(codes::ADD, r, mem, op, f),
        ),
        4 => taking(
            timing::sized(4, 8, 8, 12, op),
            integer::quick_to(codes::ADD, r, mem, op, f),
        ),
        5 => taking(8, integer::quick_address(codes::ADD, r, op, f)),
        6 => taking(
            timing::paired(4, 8, 18, 30, op),
            integer::paired(codes::ADD_EXTENDED, r, mem, op, f),
        ),
        7 => taking(
            timing::sized(4, 8, 4, 6, op),
            integer::to_register(codes::SUBTRACT, r, mem, op, f),
        ),
        8 => taking(
            timing::sized(8, 12, 8, 12, op),
            integer::to_memory(codes::SUBTRACT, r, mem, op, f),
        ),
        9 => taking(
            timing::addressed(8, 8, 8, 6, op),
            integer::to_address(codes::SUBTRACT, r, mem, op, f),
        ),
        10 => taking(
            timing::sized(8, 16, 12, 20, op),
            integer::immediate_to(codes::SUBTRACT, r, mem, op, f),
        ),
        11 => taking(
            timing::sized(4, 8, 8, 12, op),
            integer::quick_to(codes::SUBTRACT, r, mem, op, f),
        ),
        12 => taking(8, integer::quick_address(codes::SUBTRACT, r, op, f)),
        13 => taking(
            timing::paired(4, 8, 18, 30, op),
            integer::paired(codes::SUBTRACT_EXTENDED, r, mem, op, f),
        ),
        14 => taking(
            timing::sized(4, 6, 8, 12, op),
            integer::unary(codes::NEGATE, r, mem, op, f),
        ),
        15 => taking(
            timing::sized(4, 6, 8, 12, op),
            integer::unary(codes::NEGATE_EXTENDED, r, mem, op, f),
        ),
        16 => taking(
            timing::sized(4, 6, 8, 12, op),
            integer::unary(codes::CLEAR, r, mem, op, f),
        ),
        17 => taking(
            timing::sized(4, 6, 4, 6, op),
            integer::to_register(codes::COMPARE, r, mem, op, f),
        ),
        18 => taking(
            timing::addressed(6, 6, 6, 6, op),
            integer::compare_address(r, mem, op, f),
        ),
        19 => taking(
            timing::sized(8, 14, 8, 12, op),
            integer::compare_immediate(r, mem, op, f),
        ),
        20 => taking(
            timing::paired(12, 20, 12, 20, op),
            integer::compare_memory(r, mem, op, f),
        ),
        21 => taking(
            timing::signed(38, r, mem, op, f),
            integer::multiply(codes::SIGNED, r, mem, op, f),
        ),
        22 => taking(
            timing::unsigned(38, r, mem, op, f),
            integer::multiply(codes::UNSIGNED, r, mem, op, f),
        ),
        23 => taking(
            timing::narrow(158, 158, op),
            integer::divide(codes::SIGNED, r, mem, op, f),
        ),
        24 => taking(
            timing::narrow(140, 140, op),
            integer::divide(codes::UNSIGNED, r, mem, op, f),
        ),
        25 => taking(4, integer::extend(r, mem, op, f)),
        26 => taking(
            timing::narrow(4, 10, op),
            integer::unary(codes::TEST_AND_SET, r, mem, op, f),
        ),
        _ => taking(timing::sized(4, 4, 4, 4, op), integer::test(r, mem, op, f)),
    }
}

// Kinds 46 to 61: logical, shift and rotate, bit, decimal.
pub fn logical_kind(j: u32, r: &mut [u32; SLOTS], mem: &Parts, op: u32, f: Flow) -> Timed
    requires { j < 16 }
    ensures plan_value { record { r = r.new; p = result.plan } ≡ logical_kind j r.old (view_of (map (λ x. x.now) mem.now)) op f }
    ensures clocks_value { result.clocks ≡ clocks (AndToRegister + j) r.old (view_of (map (λ x. x.now) mem.now)) op f }
{
    match j {
        0 => taking(
            timing::sized(4, 8, 4, 6, op),
            integer::to_register(codes::AND, r, mem, op, f),
        ),
        1 => taking(
            timing::sized(8, 12, 8, 12, op),
            integer::to_memory(codes::AND, r, mem, op, f),
        ),
        2 => taking(
            timing::sized(8, 16, 12, 20, op),
            integer::immediate_to(codes::AND, r, mem, op, f),
        ),
        3 => taking(
            timing::sized(4, 8, 4, 6, op),
            integer::to_register(codes::OR, r, mem, op, f),
        ),
        4 => taking(
            timing::sized(8, 12, 8, 12, op),
            integer::to_memory(codes::OR, r, mem, op, f),
        ),
        5 => taking(
            timing::sized(8, 16, 12, 20, op),
            integer::immediate_to(codes::OR, r, mem, op, f),
        ),
        6 => taking(
            timing::sized(4, 8, 8, 12, op),
            integer::to_memory(codes::EXCLUSIVE_OR, r, mem, op, f),
        ),
        7 => taking(
            timing::sized(8, 16, 12, 20, op),
            integer::immediate_to(codes::EXCLUSIVE_OR, r, mem, op, f),
        ),
        8 => taking(
            timing::sized(4, 6, 8, 12, op),
            integer::unary(codes::COMPLEMENT, r, mem, op, f),
        ),
        9 => taking(
            timing::shifted(6, 8, r, op),
            bitwise::shift_register(r, mem, op, f),
        ),
        10 => taking(
            timing::narrow(8, 8, op),
            bitwise::shift_memory(r, mem, op, f),
        ),
        11 => taking(
            timing::bit_clocks(0, op),
            bitwise::bit_dynamic(r, mem, op, f),
        ),
        12 => taking(
            timing::bit_clocks(4, op),
            bitwise::bit_static(r, mem, op, f),
        ),
        13 => taking(
            timing::paired(6, 6, 18, 18, op),
            integer::paired(codes::ADD_DECIMAL, r, mem, op, f),
        ),
        14 => taking(
            timing::paired(6, 6, 18, 18, op),
            integer::paired(codes::SUBTRACT_DECIMAL, r, mem, op, f),
        ),
        _ => taking(
            timing::narrow(6, 8, op),
            integer::unary(codes::NEGATE_DECIMAL, r, mem, op, f),
        ),
    }
}

// Program control, from BCC on.
pub fn control_kind(j: u32, r: &mut [u32; SLOTS], mem: &Parts, op: u32, f: Flow) -> Timed
    requires { j < 10 }
    ensures plan_value { record { r = r.new; p = result.plan } ≡ control_kind j r.old (view_of (map (λ x. x.now) mem.now)) op f }
    ensures clocks_value { result.clocks ≡ clocks (Bcc + j) r.old (view_of (map (λ x. x.now) mem.now)) op f }
{
    match j {
        0 => taking(
            timing::branched(10, 8, 12, op, f),
            control::branch(mem, op, f),
        ),
        1 => taking(
            timing::branched(10, 8, 12, op, f),
            control::branch(mem, op, f),
        ),
        2 => taking(18, control::branch_subroutine(r, mem, op, f)),
        3 => taking(
            timing::counted(12, 10, 14, r, op, f),
            control::decrement_branch(r, mem, op, f),
        ),
        4 => taking(
            timing::conditional(4, 6, 8, op, f),
            control::set_condition(r, mem, op, f),
        ),
        5 => taking(timing::jumped(0, op), control::jump_to(r, mem, op, f)),
        6 => taking(
            timing::jumped(8, op),
            control::jump_subroutine(r, mem, op, f),
        ),
        7 => taking(4, control::no_operation(f)),
        8 => taking(20, control::return_restore(r, mem, op, f)),
        _ => taking(16, control::return_subroutine(r, mem, op, f)),
    }
}

// System control, from AND_I_TO_CCR on.
pub fn system_kind(j: u32, r: &mut [u32; SLOTS], mem: &Parts, op: u32, f: Flow) -> Timed
    ensures plan_value { record { r = r.new; p = result.plan } ≡ system_kind j r.old (view_of (map (λ x. x.now) mem.now)) op f }
    ensures clocks_value { result.clocks ≡ clocks (AndIToCcr + j) r.old (view_of (map (λ x. x.now) mem.now)) op f }
{
    match j {
        0 => taking(20, system::immediate_to_ccr(codes::AND, mem, f)),
        1 => taking(20, system::immediate_to_sr(codes::AND, mem, f)),
        2 => taking(20, system::immediate_to_ccr(codes::EXCLUSIVE_OR, mem, f)),
        3 => taking(20, system::immediate_to_sr(codes::EXCLUSIVE_OR, mem, f)),
        4 => taking(20, system::immediate_to_ccr(codes::OR, mem, f)),
        5 => taking(20, system::immediate_to_sr(codes::OR, mem, f)),
        6 => taking(
            timing::narrow(6, 8, op),
            system::move_from_sr(r, mem, op, f),
        ),
        7 => taking(
            timing::narrow(12, 12, op),
            system::move_to_ccr(r, mem, op, f),
        ),
        8 => taking(
            timing::narrow(12, 12, op),
            system::move_to_sr(r, mem, op, f),
        ),
        9 => taking(4, system::move_to_usp(r, op, f)),
        10 => taking(4, system::move_from_usp(r, op, f)),
        11 => taking(132, system::reset_devices(f)),
        12 => taking(20, system::return_exception(r, mem, op, f)),
        13 => taking(4, system::stop(mem, f)),
        14 => taking(0, system::trap(op, f)),
        15 => taking(4, system::trap_overflow(f)),
        _ => taking(
            timing::narrow(10, 10, op),
            system::check_bounds(r, mem, op, f),
        ),
    }
}
