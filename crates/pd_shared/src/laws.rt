// What it means that steps are pushed, and that a scheduler was removed.
ghost use Rattle.std.specs.Prelude.{◌≡◌, ◌≢◌, ℕ, List, All, Contains, None, Ok, Some, codes, take};
ghost use Rattle.pd_types.specs.declared.request.Request.TheVariants as ask;
ghost use Rattle.pd_types.specs.declared.step.StepMsg.{StepMsg};
ghost use Rattle.pd_ctl.specs.declared.command.Command.TheVariants as commands;
ghost use Rattle.pd_state.specs.Reports.{command_told};
ghost use Rattle.pd_state.specs.declared.reply.Reply.{Reply};
ghost use Rattle.pd_state.specs.declared.reply.Reply.TheVariants as replies;
ghost use Rattle.pd_shared.specs.Benches.{removed_with};
ghost use Rattle.pd_shared.specs.Outlets.{ArePushed};

/// Of what a cluster sent to a store, each step that was pushed was sent, and the first 64 were all
/// pushed, in their order.
pub fn what_is_pushed_was_sent()
    ensures sent { (sends pushed : List StepMsg) → ArePushed 0 sends pushed → All (Contains sends) pushed }
    ensures first { (sends pushed : List StepMsg) → ArePushed 0 sends pushed → take 64 pushed ≡ take 64 sends }
{}

/// A `scheduler remove` removed the scheduler of that name exactly where it was answered
/// `{"done":"Removed"}`.
pub fn what_was_removed()
    ensures removed { (moment : ℕ) (words name : List ℕ) → command_told words ≡ Ok (commands.SchedulerRemove name) → removed_with (ask.Ctl moment words) (replies.Report (codes "{\"done\":\"Removed\"}")) ≡ Some name }
    ensures other { (moment : ℕ) (words : List ℕ) (reply : Reply) → reply ≢ replies.Report (codes "{\"done\":\"Removed\"}") → removed_with (ask.Ctl moment words) reply ≡ None }
{}
