//! Making an edit, and letting go of what is kept and could be other after it.
ghost use Rattle.std.specs.Prelude.{◌≡◌, ◌⊎◌, length, IfOk, IfErr, OnOk, OnErr};
ghost use Rattle.itpg_edit.specs.Rules.{Broken, Unbroken};
ghost use Rattle.itpg_edit.specs.Sites.{HasMoments};
ghost use Rattle.edit_reader.specs.Readings.{Changes};
ghost use Rattle.itpg_session.specs.Replies.{edit_said};
ghost use Rattle.itpg_session.specs.Machine.{Answers};
ghost use Rattle.itpg_session.specs.Steps.{Decides, ForgetsEdit, WantsMemory};
ghost use Rattle.itpg_session.specs.Following.{IsToSpare, LeavesFollows, SparesUntouched, KeepsIfSaid};

use crate::laws::law_of_graphs;
use crate::session::Session;
use itpg_base::RuleCode;
use itpg_edit::{Edit, EditFault, apply, broken, make_edit};
use path_eval::law_of_near_rows;
use source_rows::{Touched, law_of_unmet_lists, touched_by};
use std::alloc::AllocError;

impl Session {
    /// Makes an edit, or refuses it by the first rule that it breaks.
    pub(crate) fn edit(&mut self, edit: &Edit) -> Result<Option<RuleCode>, AllocError>
        requires { HasMoments edit.now }
        ensures decides { Decides (Answers self.old.limit self.old.machine (Changes edit.now)) (WantsMemory self.old.machine (Changes edit.now)) self.old self.new (edit_said result) }
        ensures forgets { OnOk result (Unbroken self.old.machine.graph edit.now → ForgetsEdit edit.now self.old self.new) }
        ensures table { ForgetsEdit edit.now self.old self.new ⊎ (self.new.table ≡ self.old.table) }
        ensures unmade { OnErr result (self.new.table ≡ self.old.table) }
        ensures pins { self.new.pins ≡ self.old.pins }
        ensures follows { LeavesFollows (Changes edit.now) self.old self.new }
        ensures spares { OnOk result (Unbroken self.old.machine.graph edit.now → SparesUntouched edit.now self.old self.new) }
        ensures holds { KeepsIfSaid self.old self.new (edit_said result) }
    {
        if self.plans.len() == 0 && self.watches.len() == 0 && self.follows.len() == 0 {
            return self.first_edit(edit);
        }
        match self.touched(edit) {
            Ok(touched) => self.later_edit(edit, &touched),
            Err(rule) => Ok(Some(rule)),
        }
    }

    // What the edit touches, or the first rule that it breaks. Where nothing is followed nobody asks for either.
    fn touched(&self, edit: &Edit) -> Result<Touched, RuleCode>
        requires { HasMoments edit.now }
        ensures touched { IfOk result (λ touched. IsToSpare self.now.machine.graph edit.now touched self.now.follows) }
        ensures broken { IfErr result (λ rule. Broken self.now.machine.graph edit.now rule) }
    {
        if self.follows.len() == 0 {
            return Ok(Touched::Everything);
        }
        match broken(&self.graph, edit) {
            Some(rule) => Err(rule),
            None => Ok(touched_by(&self.graph, edit)),
        }
    }

    // Makes it, or refuses it, at any time. What is kept and could be other after the edit is forgotten, which takes no memory.
    fn later_edit(&mut self, edit: &Edit, touched: &Touched) -> Result<Option<RuleCode>, AllocError>
        requires moments { HasMoments edit.now }
        requires touched { IsToSpare self.old.machine.graph edit.now touched.now self.old.follows }
        ensures decides { Decides (Answers self.old.limit self.old.machine (Changes edit.now)) (WantsMemory self.old.machine (Changes edit.now)) self.old self.new (edit_said result) }
        ensures forgets { OnOk result (Unbroken self.old.machine.graph edit.now → ForgetsEdit edit.now self.old self.new) }
        ensures table { ForgetsEdit edit.now self.old self.new ⊎ (self.new.table ≡ self.old.table) }
        ensures unmade { OnErr result (self.new.table ≡ self.old.table) }
        ensures pins { self.new.pins ≡ self.old.pins }
        ensures follows { LeavesFollows (Changes edit.now) self.old self.new }
        ensures spares { OnOk result (Unbroken self.old.machine.graph edit.now → SparesUntouched edit.now self.old self.new) }
        ensures holds { KeepsIfSaid self.old self.new (edit_said result) }
    {
        law_of_unmet_lists();
        law_of_near_rows();
        law_of_graphs(&self.graph);
        let touch = match apply(&mut self.graph, edit) {
            Ok(touch) => touch,
            Err(EditFault::Rule(rule)) => return Ok(Some(rule)),
            Err(EditFault::Memory) => return Err(AllocError),
        };
        law_of_graphs(&self.graph);
        self.plans.forget(&touch);
        self.watches.touched(&touch);
        self.follows.touched(touched);
        Ok(None)
    }

    // The same where nothing was asked and nothing is watched so far, so that nothing depends on the edit.
    fn first_edit(&mut self, edit: &Edit) -> Result<Option<RuleCode>, AllocError>
        requires moments { HasMoments edit.now }
        requires plans { length self.old.table.nodes ≡ 0 }
        requires kept { length self.old.table.kept ≡ 0 }
        requires watches { length self.old.watches ≡ 0 }
        requires follows { length self.old.follows ≡ 0 }
        ensures decides { Decides (Answers self.old.limit self.old.machine (Changes edit.now)) (WantsMemory self.old.machine (Changes edit.now)) self.old self.new (edit_said result) }
        ensures forgets { OnOk result (Unbroken self.old.machine.graph edit.now → ForgetsEdit edit.now self.old self.new) }
        ensures table { ForgetsEdit edit.now self.old self.new ⊎ (self.new.table ≡ self.old.table) }
        ensures unmade { OnErr result (self.new.table ≡ self.old.table) }
        ensures pins { self.new.pins ≡ self.old.pins }
        ensures follows { self.new.follows ≡ self.old.follows }
    {
        law_of_graphs(&self.graph);
        match make_edit(&mut self.graph, edit) {
            Ok(()) => {}
            Err(EditFault::Rule(broken)) => return Ok(Some(broken)),
            Err(EditFault::Memory) => return Err(AllocError),
        }
        law_of_graphs(&self.graph);
        Ok(None)
    }
}
