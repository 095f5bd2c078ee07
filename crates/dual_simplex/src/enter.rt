// The step: flips, the entering column, and what changes with it.
use crate::fresh::take_column;
use crate::lp::Lp;
use crate::price::Leaving;
use crate::variable::Status;
use basis_factor::{at, place, put};
use std::alloc::AllocError;

// The greatest weight; where one passes it all are 1 again.
const MOST_WEIGHT: f64 = 1e7;

impl Lp {
    /// Makes an entering variable's column by the basis, and says its number at a position.
    pub fn enter_column(&mut self, variable: usize, position: usize) -> f64 {
        self.alpha.fill(0.0);
        take_column(
            self.alpha.as_mut_slice(),
            &self.by_columns,
            self.columns,
            variable,
            -1.0,
        );
        self.factor.ftran(self.alpha.as_mut_slice());
        at(self.alpha.as_slice(), position)
    }

    /// Takes the first so many candidates to the other ends of their ranges.
    pub fn flip(&mut self, many: usize) {
        if many == 0 {
            return;
        }
        self.spare.fill(0.0);
        for k in 0..many {
            if let Some(candidate) = self.candidates.get(k) {
                let index = candidate.variable as usize;
                self.flip_one(index);
            }
        }
        self.factor.ftran(self.spare.as_mut_slice());
        for (position, basic) in self.head.iter().enumerate() {
            let change = at(self.spare.as_slice(), position);
            if change != 0.0 {
                if let Some(variable) = self.variables.get_mut(*basic as usize) {
                    variable.value += change;
                }
            }
        }
    }

    // Takes a variable to the other end of its range, and what this gives from rows.
    fn flip_one(&mut self, index: usize) {
        if index >= self.variables.len() || index >= self.statuses.len() {
            return;
        }
        let next = match self.statuses[index] {
            Status::Lower => Status::Upper,
            _ => Status::Lower,
        };
        self.statuses[index] = next;
        let variable = &mut self.variables[index];
        let change = variable.end(next) - variable.value;
        variable.value += change;
        take_column(
            self.spare.as_mut_slice(),
            &self.by_columns,
            self.columns,
            index,
            change,
        );
    }

    /// Exchanges what leaves for a variable that enters, with its number in the pivot row and in its column.
    pub fn exchange(
        &mut self,
        leaving: &Leaving,
        variable: usize,
        in_row: f64,
        in_column: f64,
    ) -> Result<(), AllocError> {
        let out = match self.head.get(leaving.position) {
            Some(basic) => *basic as usize,
            None => return Ok(()),
        };
        let step = self.dual_step(variable, in_row);
        self.step_reduced(step, variable);
        self.set_reduced(variable, 0.0);
        self.set_reduced(out, -step * leaving.sign());
        self.step_values(leaving, out, variable, in_column);
        self.weigh(leaving.position, in_column);
        let end = if leaving.excess < 0.0 {
            Status::Lower
        } else {
            Status::Upper
        };
        self.set_status(out, end);
        self.set_status(variable, Status::Basic);
        if leaving.position < self.head.len() {
            self.head[leaving.position] = place(variable);
        }
        if !self
            .factor
            .update(place(leaving.position), self.alpha.as_slice())?
        {
            self.is_stale = true;
        }
        Ok(())
    }

    // The length of the dual step: 0 where it would have the wrong sign, with the entering cost shifted.
    fn dual_step(&mut self, variable: usize, in_row: f64) -> f64 {
        match self.variables.get_mut(variable) {
            None => 0.0,
            Some(entering) => {
                let step = entering.reduced / in_row;
                if step < 0.0 {
                    entering.shift();
                    0.0
                } else {
                    step
                }
            }
        }
    }

    // Changes reduced costs by a step along the pivot row.
    fn step_reduced(&mut self, step: f64, entering: usize) {
        for index in &self.nonzeros {
            let place = *index as usize;
            if place < self.row.len()
                && place < self.variables.len()
                && place < self.statuses.len()
            {
                let variable = &mut self.variables[place];
                if step != 0.0 {
                    variable.reduced -= step * self.row[place];
                }
                if place != entering {
                    variable.shift_if_wrong(self.statuses[place]);
                }
            }
        }
    }

    // Changes values by the step that takes what leaves to its end.
    fn step_values(&mut self, leaving: &Leaving, out: usize, variable: usize, in_column: f64) {
        let Some(last) = self.variables.get(out) else {
            return;
        };
        let end = if leaving.excess < 0.0 {
            last.lower
        } else {
            last.upper
        };
        let step = (last.value - end) / in_column;
        for (basic, alpha) in self.head.iter().zip(self.alpha.iter()) {
            if *alpha != 0.0 {
                if let Some(changed) = self.variables.get_mut(*basic as usize) {
                    changed.value -= step * *alpha;
                }
            }
        }
        if let Some(entering) = self.variables.get_mut(variable) {
            entering.value += step;
        }
        if let Some(left) = self.variables.get_mut(out) {
            left.value = end;
        }
    }

    // Changes weights by the entering column.
    fn weigh(&mut self, position: usize, in_column: f64) {
        let own = at(self.weights.as_slice(), position).max(1.0);
        for (weight, alpha) in self.weights.iter_mut().zip(self.alpha.iter()) {
            if *alpha != 0.0 {
                let part = *alpha / in_column;
                *weight = weight.max(part * part * own);
            }
        }
        let next = (own / (in_column * in_column)).max(1.0);
        put(self.weights.as_mut_slice(), position, next);
        if next > MOST_WEIGHT {
            self.weights.fill(1.0);
        }
    }

    // Sets a variable's reduced cost.
    fn set_reduced(&mut self, index: usize, reduced: f64) {
        if let Some(variable) = self.variables.get_mut(index) {
            variable.reduced = reduced;
        }
    }

    // Sets where a variable stands.
    fn set_status(&mut self, index: usize, status: Status) {
        if index < self.statuses.len() {
            self.statuses[index] = status;
        }
    }
}
