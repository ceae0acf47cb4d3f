ghost use Rattle.std.specs.Prelude.{◌≡◌, ◌+◌, ◌<◌, ◌≤◌, ◌^◌, ◌++◌, ◌∷◌, [], length, is_ok, IfOk, if◌then◌else◌};
ghost use Rattle.wdf_base.specs.Plan.{posts_of, statements_of};
ghost use Rattle.test_plans.specs.PlanParts.{with_post, with_statement};

use std::alloc::Global;
use std::marker::Model;
use wdf_base::{
    AgentInfo, Callback, ClassInfo, Declared, ExprNode, Items, Memory, Name, ObjectId, Plan,
    PostLine, RegisterInfo, Script, Statement, WhenLine,
};

/// A plan that is being filled. A call answers [`Memory`] where memory was refused, and leaves the plan as it was.
#[derive(Drop)]
pub struct PlanBuilder {
    alloc: Global,
    plan: Plan,
}

impl Model for PlanBuilder {
    ghost use Rattle.wdf_base.specs.declared.plan.Plan.{Plan};

    ghost Value = { Plan };

    ghost view = { λ b. b.plan };
}

impl PlanBuilder {
    /// The plan with these limits and nothing else. Agent 0, the Plug and Play manager, is there.
    pub fn new(alloc: Global, cpus: u8, limit: u32, objects: u32) -> PlanBuilder
        ensures { result ≡ record { cpus = cpus; limit = limit; objects = objects; names = []; declared = []; classes = []; registers = []; whens = []; pnp = []; agents = []; exprs = []; scripts = []; picks = [] } }
    {
        let plan = Plan {
            cpus,
            limit,
            objects,
            names: Items::new(alloc),
            declared: Items::new(alloc),
            classes: Items::new(alloc),
            registers: Items::new(alloc),
            whens: Items::new(alloc),
            pnp: Items::new(alloc),
            agents: Items::new(alloc),
            exprs: Items::new(alloc),
            scripts: Items::new(alloc),
            picks: Items::new(alloc),
        };
        PlanBuilder { alloc, plan }
    }

    /// Adds a name and answers its number. The caller adds `driver` and `req` first.
    pub fn name(&mut self, n: Name) -> Result<u32, Memory>
        requires { length self.old.names + 1 < 2 ^ 32 }
        ensures number { IfOk result (λ k. k ≡ length self.old.names) }
        ensures added { self.new ≡ (if is_ok result then record self.old { names = self.old.names ++ n ∷ [] } else self.old) }
    {
        let number = self.plan.names.len();
        self.plan.names.push(n)?;
        Ok(number)
    }

    /// Adds the driver object, or after it a declared object, and answers its id.
    pub fn declared(&mut self, d: Declared) -> Result<ObjectId, Memory>
        requires { length self.old.declared + 1 < 2 ^ 32 }
        ensures number { IfOk result (λ o. o.0 ≡ length self.old.declared + 1) }
        ensures added { self.new ≡ (if is_ok result then record self.old { declared = self.old.declared ++ d ∷ [] } else self.old) }
    {
        let id = ObjectId(self.plan.declared.len() + 1);
        self.plan.declared.push(d)?;
        Ok(id)
    }

    /// Adds a class and answers its number.
    pub fn class(&mut self, c: ClassInfo) -> Result<u16, Memory>
        requires { length self.old.classes + 1 < 65535 }
        ensures number { IfOk result (λ k. k ≡ length self.old.classes) }
        ensures added { self.new ≡ (if is_ok result then record self.old { classes = self.old.classes ++ c ∷ [] } else self.old) }
    {
        let number = self.plan.classes.len() as u16;
        self.plan.classes.push(c)?;
        Ok(number)
    }

    /// Adds a register and answers its number.
    pub fn register(&mut self, r: RegisterInfo) -> Result<u32, Memory>
        requires { length self.old.registers + 1 < 2 ^ 32 }
        ensures number { IfOk result (λ k. k ≡ length self.old.registers) }
        ensures added { self.new ≡ (if is_ok result then record self.old { registers = self.old.registers ++ r ∷ [] } else self.old) }
    {
        let number = self.plan.registers.len();
        self.plan.registers.push(r)?;
        Ok(number)
    }

    /// Adds a `when` line and answers its number.
    pub fn when(&mut self, w: WhenLine) -> Result<u32, Memory>
        requires { length self.old.whens + 1 < 2 ^ 32 }
        ensures number { IfOk result (λ k. k ≡ length self.old.whens) }
        ensures added { self.new ≡ (if is_ok result then record self.old { whens = self.old.whens ++ w ∷ [] } else self.old) }
    {
        let number = self.plan.whens.len();
        self.plan.whens.push(w)?;
        Ok(number)
    }

    /// Adds an app, a device or a target as an agent and answers its number, from 1.
    pub fn agent(&mut self, name: u32) -> Result<u16, Memory>
        requires { length self.old.agents + 1 < 65535 }
        ensures number { IfOk result (λ k. k ≡ length self.old.agents + 1) }
        ensures added { self.new ≡ (if is_ok result then record self.old { agents = self.old.agents ++ record { name = name; posts = [] } ∷ [] } else self.old) }
    {
        let number = self.plan.agents.len() as u16 + 1;
        let agent = AgentInfo {
            name,
            posts: Items::new(self.alloc),
        };
        self.plan.agents.push(agent)?;
        Ok(number)
    }

    /// Adds a post to those of an agent.
    pub fn post(&mut self, agent: u16, p: PostLine) -> Result<(), Memory>
        requires agent { agent ≤ length self.old.agents }
        requires room { length (posts_of self.old agent) + 1 < 2 ^ 32 }
        ensures { self.new ≡ (if is_ok result then with_post self.old agent p else self.old) }
    {
        if agent == 0 {
            self.plan.pnp.push(p)
        } else {
            self.plan
                .agents
                .item_mut(u32::from(agent) - 1)
                .posts
                .push(p)
        }
    }

    /// Adds a node of an expression and answers its number.
    pub fn expr(&mut self, e: ExprNode) -> Result<u32, Memory>
        requires { length self.old.exprs + 1 < 2 ^ 32 }
        ensures number { IfOk result (λ k. k ≡ length self.old.exprs) }
        ensures added { self.new ≡ (if is_ok result then record self.old { exprs = self.old.exprs ++ e ∷ [] } else self.old) }
    {
        let number = self.plan.exprs.len();
        self.plan.exprs.push(e)?;
        Ok(number)
    }

    /// Adds the script of a callback on `o`, with the line of its `on`, and answers its number.
    pub fn script(&mut self, callback: Callback, o: Declared, line: u32) -> Result<u32, Memory>
        requires { length self.old.scripts + 1 < 2 ^ 32 }
        ensures number { IfOk result (λ k. k ≡ length self.old.scripts) }
        ensures added { self.new ≡ (if is_ok result then record self.old { scripts = self.old.scripts ++ record { callback = callback; owner = o; line = line; statements = [] } ∷ [] } else self.old) }
    {
        let number = self.plan.scripts.len();
        let script = Script {
            callback,
            owner: o,
            line,
            statements: Items::new(self.alloc),
        };
        self.plan.scripts.push(script)?;
        Ok(number)
    }

    /// Adds a statement at the end of a script.
    pub fn statement(&mut self, script: u32, s: Statement) -> Result<(), Memory>
        requires script { script < length self.old.scripts }
        requires room { length (statements_of self.old script) + 1 < 2 ^ 32 }
        ensures { self.new ≡ (if is_ok result then with_statement self.old script s else self.old) }
    {
        self.plan.scripts.item_mut(script).statements.push(s)
    }

    /// Adds a number by which the run picks an event.
    pub fn pick(&mut self, n: u64) -> Result<(), Memory>
        requires { length self.old.picks + 1 < 2 ^ 32 }
        ensures { self.new ≡ (if is_ok result then record self.old { picks = self.old.picks ++ n ∷ [] } else self.old) }
    {
        self.plan.picks.push(n)
    }

    /// The plan.
    pub fn finish(self) -> Plan
        ensures { result ≡ self }
    {
        let PlanBuilder { alloc: _, plan } = self;
        plan
    }
}
